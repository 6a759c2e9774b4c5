//! What holds of every computation that asks a bus for words.

ghost use Rattle.std.specs.Prelude.{◌≡◌, []};
ghost use Rattle.std.specs.List.{push};
ghost use Rattle.poison_mem.specs.Bus.{logged_all};
ghost use Rattle.poison_mem.specs.Asking.{Asking, play, with_log};

use crate::bus::Bus;
use crate::log::EventLog;

/// A computation over any log ends as over a list of events, which are then logged in order.
pub fn plays_go_by_their_events<X, B: Bus, G: EventLog>()
    ensures { (m : Asking X) (b : B) (log : G) →
        play B.meaning G.logged m b log ≡ with_log (logged_all G.logged log) (play B.meaning push m b []) }
{}
