//! What a turn is told beside the state of its hart.

ghost use Rattle.std.specs.Prelude.{◌≡◌, ◌≤◌};
ghost use Rattle.rv64_hart.specs.Around.{around_at, around_of};
ghost use Rattle.rv64_hart.specs.Program.{IsTold};

use crate::parts::behind;
use crate::peers::Peers;

/// What a turn is told beside the state of its hart.
#[derive(Clone, Copy)]
pub(crate) struct Around<'a> {
    /// How many words RAM has.
    pub(crate) words: u32,
    pub(crate) peers: Peers,
    /// The machine's step.
    pub(crate) now: u64,
    /// The bytes of the input that aren't taken yet.
    pub(crate) input: &'a [u8],
}

impl<'a> Around<'a> {
    /// What a turn is told of a memory of so many words, of at most four harts, in this step, with the whole input and the
    /// place in it.
    #[inline]
    pub(crate) fn at(words: u32, peers: Peers, now: u64, input: &'a [u8], place: u64) -> Around<'a>
        requires { peers.harts ≤ 4 }
        ensures value { around_of result ≡ around_at words peers now input.now place }
        ensures told { IsTold words place (around_of result) }
    {
        Around {
            words,
            peers,
            now,
            input: behind(input, place),
        }
    }
}
