//! No event is lost or doubled between the banks and the emitted records, and what firmware's memory shows of them.

ghost use Rattle.std.specs.Prelude.{◌≡◌, ◌≤◌, ◌<◌, ◌+◌, ◌-◌, ◌*◌, ◌^◌, ◌++◌, ℕ, List, Option, [], length, drop, map, Some, None};
ghost use Rattle.std.specs.List.{AllByRecursion};
ghost use Rattle.acpi_tables.specs.Reading.{bert_of, hest_of};
ghost use Rattle.acpi_tables.specs.Tables.{status_address};
ghost use Rattle.acpi_tables.specs.Written.{bert_view, hest_view};
ghost use Rattle.byte_fields.specs.Fields.{number_in, zeros};
ghost use Rattle.poison_mem.specs.declared.event.Event.{Event};
ghost use Rattle.ras_bits.specs.declared.map.TheConstants.{FIRMWARE_START, FIRMWARE_LENGTH, BERT_START, POLLED_POINTER, POLLED_BLOCK_START, BOOT_REGION_LENGTH};
ghost use Rattle.poison_mem.specs.declared.record_id.RecordId.{RecordId};
ghost use Rattle.reri_bank.specs.Record.{rec_of};
ghost use Rattle.ras_firmware.specs.Drain.{all_kept, fatal_view};
ghost use Rattle.ras_firmware.specs.Firmware.{FirmwareCall, new_firmware};
ghost use Rattle.ras_firmware.specs.Memory.{FirmMemoryState, memory_bytes, polled_piece, region_piece};
ghost use Rattle.ras_firmware.specs.Pieces.{rest, joined_pieces, IsNonempty, kept_class};
ghost use Rattle.ras_firmware.specs.Records.{first_views};
ghost use Rattle.ras_firmware.specs.declared.memory.TheConstants.{POLLED_BLOCK_ADDRESS};
ghost use Rattle.ras_firmware.specs.Sent.{after_calls, stopped, rounds, joined_rounds, sent, last_views, clears, pieces_at, pieces_of, events_of, those_of, piece_count};

/// Over any logs, settings of the step, writes of control registers, stagings, marks and clears, and
/// a stop: the events that a record let in are its pieces, joined in order. Each piece has an event
/// and is emitted once, as what the record shows of it, in order: by the clears those that they end,
/// and at the stop the last one, which has the events since. The first
/// 4,096 of all emitted views are kept, and the others are counted: the records kept and the number
/// dropped add up to the number of pieces, of which there are at most five for each clear and five at
/// the stop. A count-down of staged injections is stagings and logs.
pub fn no_event_is_lost_or_doubled()
    ensures emitted { (id : RecordId) (calls : List FirmwareCall) →
        map Some (those_of id (sent calls)) ≡ map rec_of (pieces_of id calls) }
    ensures cleared { (id : RecordId) (calls : List FirmwareCall) →
        map Some (those_of id (joined_rounds (rounds new_firmware calls)))
        ≡ map rec_of (pieces_at id calls).pieces }
    ensures at_stop { (id : RecordId) (calls : List FirmwareCall) →
        map Some (those_of id (all_kept (after_calls calls).banks))
        ≡ map rec_of (rest (pieces_at id calls).events) }
    ensures joined { (id : RecordId) (calls : List FirmwareCall) →
        joined_pieces (pieces_of id calls) ≡ events_of id calls }
    ensures some { (id : RecordId) (calls : List FirmwareCall) →
        AllByRecursion IsNonempty (pieces_of id calls) }
    ensures kept { (fatal : Option (ℕ × ℕ)) (calls : List FirmwareCall) →
        (stopped fatal calls).records ≡ first_views (sent calls) }
    ensures counted { (calls : List FirmwareCall) → length (sent calls) ≡ piece_count calls }
    ensures bounded { (calls : List FirmwareCall) → length (sent calls) ≤ 5 * clears calls + 5 }
    ensures adds_up { (fatal : Option (ℕ × ℕ)) (calls : List FirmwareCall) →
        5 * clears calls + 5 < 2 ^ 64
        → length (stopped fatal calls).records.views + (stopped fatal calls).records.left_out
        ≡ piece_count calls }
{}

/// The kept class never falls within a piece: with more events it is at least as great.
pub fn class_never_falls()
    ensures { (front back : List Event) →
        kept_class (rec_of front) ≤ kept_class (rec_of (front ++ back)) }
{}

/// The polled block shows the views of the last clear that emitted any, before the stop and after it.
/// The boot error region shows nothing before the stop, and then the fatal record, where there is one.
pub fn the_memory_shows_the_last_emitted_views()
    ensures polled { (calls : List FirmwareCall) →
        (after_calls calls).memory.polled ≡ last_views (rounds new_firmware calls) }
    ensures polled_at_stop { (fatal : Option (ℕ × ℕ)) (calls : List FirmwareCall) →
        (stopped fatal calls).memory.polled ≡ last_views (rounds new_firmware calls) }
    ensures before { (calls : List FirmwareCall) → (after_calls calls).memory.region ≡ None }
    ensures region { (fatal : Option (ℕ × ℕ)) (calls : List FirmwareCall) →
        (stopped fatal calls).memory.region ≡ fatal_view (after_calls calls).banks fatal }
{}

/// Without views the polled block is zeros, and without a fatal record the boot error region is.
pub fn without_errors_the_blocks_are_zeros()
    ensures polled { polled_piece []
        ≡ zeros (FIRMWARE_LENGTH - (POLLED_BLOCK_START - FIRMWARE_START)) }
    ensures region { region_piece None ≡ zeros BOOT_REGION_LENGTH }
{}

/// In firmware's memory HEST has one source, whose address is that of the eight bytes that hold the
/// polled block's address, and BERT gives the boot error region.
pub fn the_tables_point_at_the_blocks()
    ensures hest { (m : FirmMemoryState) →
        hest_of (memory_bytes m) ≡ Ok hest_view }
    ensures address { (m : FirmMemoryState) → status_address (memory_bytes m) ≡ POLLED_POINTER }
    ensures pointer { (m : FirmMemoryState) →
        number_in POLLED_BLOCK_ADDRESS (POLLED_POINTER - FIRMWARE_START) (memory_bytes m)
        ≡ POLLED_BLOCK_START }
    ensures bert { (m : FirmMemoryState) →
        bert_of (drop (BERT_START - FIRMWARE_START) (memory_bytes m))
        ≡ Ok bert_view }
{}
