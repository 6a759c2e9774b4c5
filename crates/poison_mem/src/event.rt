//! Error events, and what a record of them shows.

ghost use Rattle.std.specs.Prelude.{◌≡◌};
ghost use Rattle.poison_mem.specs.Event.{event_code, event_priority, event_class, event_of, consumption_of};
ghost use Rattle.poison_mem.specs.RecordView.{record_of_view};

use crate::cell::UseKind;
use crate::record_id::RecordId;

/// How severe an event is, in rising order (RERI: CE, UED, UEC).
#[derive(Clone, Copy, Debug, Default, PartialEq, Eq)]
pub enum Class {
    /// A corrected error.
    #[default]
    Corrected,
    /// An uncorrected error, deferred: the word is poison and nobody used it.
    Deferred,
    /// An uncorrected error that needs urgent care, such as the use of a poisoned word.
    Critical,
}

/// What an error event is of.
#[derive(Clone, Copy, Debug, PartialEq, Eq)]
pub enum EventKind {
    /// A word one flip away from a codeword was read as that codeword's value.
    CorrectedWord,
    /// A word was found to be no codeword, nor one flip away from one.
    BadWord,
    /// A cache wrote back a poisoned word.
    PoisonWrittenBack,
    /// A hart used a poisoned word.
    Consumption,
    /// An injected error of the staged class.
    Injected(Class),
}

impl EventKind {
    /// The number of the kind in an event: 1 to 5, in the order above.
    pub fn code(self) -> u8
        ensures { result ≡ event_code self }
    {
        match self {
            EventKind::CorrectedWord => 1,
            EventKind::BadWord => 2,
            EventKind::PoisonWrittenBack => 3,
            EventKind::Consumption => 4,
            EventKind::Injected(_) => 5,
        }
    }

    /// The priority of such an event among others of its class, 0 to 3.
    pub fn priority(self) -> u8
        ensures { result ≡ event_priority self }
    {
        match self {
            EventKind::CorrectedWord | EventKind::Injected(_) => 0,
            EventKind::BadWord | EventKind::PoisonWrittenBack => 1,
            EventKind::Consumption => 3,
        }
    }

    /// How severe such an event is.
    pub fn class(self) -> Class
        ensures { result ≡ event_class self }
    {
        match self {
            EventKind::CorrectedWord => Class::Corrected,
            EventKind::BadWord | EventKind::PoisonWrittenBack => Class::Deferred,
            EventKind::Consumption => Class::Critical,
            EventKind::Injected(class) => class,
        }
    }
}

/// One error event.
#[derive(Clone, Copy, Debug, Default, PartialEq, Eq)]
pub struct Event {
    /// The error bank.
    pub bank: u8,
    /// The record of that bank.
    pub rec: u8,
    /// How severe it is.
    pub class: Class,
    /// The priority among events of one class.
    pub pri: u8,
    /// What happened, as [`EventKind::code`] numbers it.
    pub code: u8,
    /// Whether a scrub found it.
    pub scrub: bool,
    /// The byte address of the word.
    pub addr: u64,
    /// The number of the flipped bit of a corrected word; of a consumption, the number of the use in bits 7:0 and that of
    /// the hart in bits 15:8; else 0.
    pub info: u64,
    /// The pc of a consumption; else 0.
    pub suppl: u64,
    /// The step in which it was logged. A memory leaves it 0.
    pub at: u64,
}

impl Event {
    /// An event of this kind, for the record `rec` of `bank`, of the word at the byte address `addr`. It is one of a scrub
    /// for record 1 of bank 0 alone. What else it says is 0.
    pub fn new(kind: EventKind, bank: u8, rec: u8, addr: u64) -> Event
        ensures { result ≡ event_of kind bank rec addr }
    {
        Event {
            bank,
            rec,
            class: kind.class(),
            pri: kind.priority(),
            code: kind.code(),
            scrub: bank == 0 && rec == 1,
            addr,
            info: 0,
            suppl: 0,
            at: 0,
        }
    }

    /// The event of a hart that used the poisoned word at the byte address `addr`, with its pc.
    pub fn consumption(use_kind: UseKind, hart: u8, addr: u64, pc: u64) -> Event
        ensures { result ≡ consumption_of use_kind hart addr pc }
    {
        Event {
            info: u64::from(use_kind.number()) + 256 * u64::from(hart),
            suppl: pc,
            ..Event::new(
                EventKind::Consumption,
                RecordId::Hart.bank(),
                RecordId::Hart.record(),
                addr,
            )
        }
    }
}

/// What a record of events shows.
#[derive(Clone, Copy, Debug, Default, PartialEq, Eq)]
pub struct RecordView {
    /// The event that the record keeps.
    pub kept: Event,
    /// Whether a corrected error came.
    pub ce: bool,
    /// Whether a deferred one came.
    pub ued: bool,
    /// Whether a critical one came.
    pub uec: bool,
    /// Whether more than one event of the kept class came.
    pub mo: bool,
    /// The number of corrected errors, at most 65,535.
    pub cec: u16,
    /// Whether there were more.
    pub ceco: bool,
}

impl RecordView {
    /// The record that the view is of, where its event names one.
    pub fn record(&self) -> Option<RecordId>
        ensures { result ≡ record_of_view self.now }
    {
        RecordId::named(self.kept.bank, self.kept.rec)
    }
}
