//! The five error records of the three banks.

ghost use Rattle.std.specs.Prelude.{◌≡◌, ◌↔◌, ℕ, true, IsSome, Some};
ghost use Rattle.poison_mem.specs.RecordId.{bank_number, record_number, record_id, names_record, all_records};
ghost use Rattle.poison_mem.specs.declared.record_id.TheConstants.RecordId.{ALL};

/// An error record.
#[derive(Clone, Copy, Debug, PartialEq, Eq)]
pub enum RecordId {
    /// Words that the machine reads: bank 0, record 0.
    Read,
    /// Words that a scrub reads: bank 0, record 1.
    Scrub,
    /// The first cache: bank 1, record 0.
    L1,
    /// The second cache: bank 1, record 1.
    L2,
    /// A hart that used poison: bank 2, record 0.
    Hart,
}

impl RecordId {
    /// All records, by bank and then by record.
    pub const ALL: [RecordId; 5] = [
        RecordId::Read,
        RecordId::Scrub,
        RecordId::L1,
        RecordId::L2,
        RecordId::Hart,
    ];

    /// The number of its bank, 0 to 2.
    pub fn bank(self) -> u8
        ensures { result ≡ bank_number self }
    {
        match self {
            RecordId::Read | RecordId::Scrub => 0,
            RecordId::L1 | RecordId::L2 => 1,
            RecordId::Hart => 2,
        }
    }

    /// The number of the record in its bank, 0 or 1.
    pub fn record(self) -> u8
        ensures { result ≡ record_number self }
    {
        match self {
            RecordId::Read | RecordId::L1 | RecordId::Hart => 0,
            RecordId::Scrub | RecordId::L2 => 1,
        }
    }

    /// The record that a bank and a number name, where there is one.
    pub fn named(bank: u8, rec: u8) -> Option<RecordId>
        ensures value { result ≡ record_id bank rec }
        ensures there { IsSome result ↔ (names_record bank rec ≡ true) }
    {
        match (bank, rec) {
            (0, 0) => Some(RecordId::Read),
            (0, 1) => Some(RecordId::Scrub),
            (1, 0) => Some(RecordId::L1),
            (1, 1) => Some(RecordId::L2),
            (2, 0) => Some(RecordId::Hart),
            _ => None,
        }
    }
}

/// A record is named by its own bank and number, and by no other, and [`RecordId::ALL`] are all records.
pub fn records_are_named_by_their_numbers()
    ensures own { (id : RecordId) → record_id (bank_number id) (record_number id) ≡ Some id }
    ensures alone { (bank rec : ℕ) (id : RecordId) → record_id bank rec ≡ Some id
        → (bank ≡ bank_number id) × (rec ≡ record_number id) }
    ensures all { ALL ≡ all_records }
{}
