//! One record of a bank.

ghost use Rattle.std.specs.Prelude.{◌≡◌};
ghost use Rattle.reri_bank.specs.Record.{rank, with_event, ranks_above, more_after, count_after, passed_after};

use poison_mem::{Class, Event, RecordView};

/// The most corrected errors that a record counts.
pub(crate) const MOST_COUNTED: u16 = u16::MAX;

/// The rank of a class in the rising order.
fn rank(class: Class) -> u8
    ensures { result ≡ rank class }
{
    match class {
        Class::Corrected => 0,
        Class::Deferred => 1,
        Class::Critical => 2,
    }
}

/// Whether an event has a greater class than another, or the same class and a greater priority.
fn ranks_above(event: &Event, kept: &Event) -> bool
    ensures { result ≡ ranks_above event.now kept.now }
{
    let new = rank(event.class);
    let old = rank(kept.class);
    old < new || (new == old && kept.pri < event.pri)
}

/// Whether two events of the kept class have come.
fn more_after(view: &RecordView, class: Class) -> bool
    ensures { result ≡ more_after view.now class }
{
    let new = rank(class);
    let old = rank(view.kept.class);
    if old < new {
        false
    } else {
        view.mo || new == old
    }
}

/// The number of corrected errors, up to the last that fits.
fn count_after(view: &RecordView, class: Class) -> u16
    ensures { result ≡ count_after view.now class }
{
    match class {
        Class::Corrected if view.cec < MOST_COUNTED => view.cec + 1,
        _ => view.cec,
    }
}

/// Whether more corrected errors have come than are counted.
fn passed_after(view: &RecordView, class: Class) -> bool
    ensures { result ≡ passed_after view.now class }
{
    match class {
        Class::Corrected if view.cec == MOST_COUNTED => true,
        _ => view.ceco,
    }
}

/// What a record shows after one more event.
#[tactic(auto, unfolding(crate::specs::Record::with_event))]
pub(crate) fn with_event(before: Option<RecordView>, event: Event) -> RecordView
    ensures { result ≡ with_event before event }
{
    let corrected = event.class == Class::Corrected;
    let deferred = event.class == Class::Deferred;
    let critical = event.class == Class::Critical;
    match before {
        None => RecordView {
            kept: event,
            ce: corrected,
            ued: deferred,
            uec: critical,
            mo: false,
            cec: u16::from(corrected),
            ceco: false,
        },
        Some(view) => RecordView {
            kept: if ranks_above(&event, &view.kept) {
                event
            } else {
                view.kept
            },
            ce: view.ce | corrected,
            ued: view.ued | deferred,
            uec: view.uec | critical,
            mo: more_after(&view, event.class),
            cec: count_after(&view, event.class),
            ceco: passed_after(&view, event.class),
        },
    }
}
