//! What a word of memory shows, the events that reading it logs, and the bus that a hart works on.
//!
//! The definitions beside it say what a computation does that asks a bus for words.
#![tactic(auto)]

mod bus;
mod cache_state;
mod cell;
mod event;
mod flat;
mod flips;
mod level;
mod line;
mod log;
mod plays;
mod record_id;

pub use bus::Bus;
pub use cache_state::{CacheState, Held};
pub use cell::{Cell, CellState, UseKind, merge};
pub use event::{Class, Event, EventKind, RecordView};
pub use flat::FlatMem;
pub use flips::FlipBus;
pub use level::{FlipMem, LineMem};
pub use line::Line;
pub use log::{EventLog, NoLog, ShortLog};
pub use plays::plays_go_by_their_events;
pub use record_id::{RecordId, records_are_named_by_their_numbers};

#[cfg(test)]
mod tests {
    use super::*;
    use std::test::Fail;

    #[test]
    fn a_store_takes_the_bytes_of_its_mask(rt: HostRuntime) {
        let old = 0x8877_6655_4433_2211;
        let value = 0x0807_0605_0403_0201;
        let rows = [
            (0x00, old),
            (0x01, 0x8877_6655_4433_2201),
            (0x80, 0x0877_6655_4433_2211),
            (0xF0, 0x0807_0605_4433_2211),
            (0x5A, 0x8807_6605_0433_0211),
            (0xFF, value),
        ];
        for (mask, merged) in rows {
            assert_eq!(rt;
                merge(Cell::Good(old), value, mask),
                Cell::Good(merged),
                "{mask:#x}"
            );
        }
        assert_eq!(rt; merge(Cell::Poison, value, 0xFF), Cell::Good(value));
        assert_eq!(rt; merge(Cell::Poison, value, 0xFE), Cell::Poison);
    }

    #[test]
    fn the_first_64_events_are_kept_and_the_rest_counted(rt: HostRuntime) {
        let mut log = ShortLog::new();
        for step in 0..66u64 {
            log.log(Event {
                at: step,
                ..Event::default()
            });
        }
        assert_eq!(rt; log.events().len(), 64);
        assert_eq!(rt; log.events()[63].at, 63);
        assert_eq!(rt; log.rest(), 2);
    }

    #[test]
    fn flat_memory_is_zero_then_what_was_stored(rt: HostRuntime) -> Result<(), Fail> {
        let mut memory = FlatMem::make(rt.alloc(), 16)?;
        assert_eq!(rt; memory.words(), 16);
        memory.load(3, 0x1122);
        memory.store(3, 0xFFFF, 0x02, &mut NoLog);
        assert_eq!(rt; memory.read(3, &mut NoLog), Cell::Good(0xFF22));
        assert_eq!(rt; memory.read(15, &mut NoLog), Cell::Good(0));
        Ok(())
    }
}
