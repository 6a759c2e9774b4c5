//! Error banks and injections: registers as the profile has them.

use poison_mem::{Class, Event, EventKind, EventLog, UseKind};
use reri_bank::{ADDR, BANK_INFO, Banks, CONTROL, INFO, STATUS, STRIDE, TIMESTAMP, VALID_SUMMARY};
use reri_inject::{count_down, stage};

const FIRST_STATUS: u16 = CONTROL + STATUS;

// Of bank 0, record 0: a corrected word, with the flip's number in `info`.
fn corrected() -> Event {
    Event {
        info: 3,
        ..Event::new(EventKind::CorrectedWord, 0, 0, 0x8000_0000)
    }
}

fn injected(class: Class, addr: u64) -> Event {
    Event::new(EventKind::Injected(class), 0, 0, addr)
}

#[test]
fn a_fresh_bank_and_one_corrected_word(rt: HostRuntime) {
    let mut banks = Banks::new();
    for (offset, want) in [
        (0, Some(0)),
        (BANK_INFO, Some(0x0100_0000_0002_0000)),
        (VALID_SUMMARY, Some(1)),
        (48, None),
        (CONTROL, Some(0x57)),
        (CONTROL + 1, None),
        (FIRST_STATUS, Some(0)),
        (112, None),
        (CONTROL + STRIDE, Some(0x57)),
        (176, None),
    ] {
        assert_eq!(rt; banks.bank(0).read_reg(offset), want, "offset {offset}");
    }
    assert_eq!(rt;
        banks.bank(2).read_reg(BANK_INFO),
        Some(0x0100_0000_0001_0002)
    );
    assert_eq!(rt; banks.bank(2).read_reg(CONTROL + STRIDE), None);
    banks.set_now(7);
    banks.log(corrected());
    for (offset, want) in [
        (VALID_SUMMARY, 3),
        (FIRST_STATUS, 0x0001_0000_0001_0403),
        (CONTROL + ADDR, 0x8000_0000),
        (CONTROL + INFO, 3),
        (CONTROL + TIMESTAMP, 7),
    ] {
        assert_eq!(rt;
            banks.bank(0).read_reg(offset),
            Some(want),
            "offset {offset}"
        );
    }
}

#[test]
fn the_count_of_corrected_errors_stops(rt: HostRuntime) {
    let mut banks = Banks::new();
    for _ in 0..65_535u32 {
        banks.log(corrected());
    }
    assert_eq!(rt;
        banks.bank(0).read_reg(FIRST_STATUS),
        Some(0xFFFF_0000_0001_0443)
    );
    // One more sets `ceco` beside the full count.
    banks.log(corrected());
    assert_eq!(rt;
        banks.bank(0).read_reg(FIRST_STATUS),
        Some(0xFFFF_0000_0001_04C3)
    );
}

#[test]
fn the_worst_event_is_kept(rt: HostRuntime) {
    let mut banks = Banks::new();
    banks.log(injected(Class::Corrected, 0x8000_0100));
    banks.log(injected(Class::Deferred, 0x8000_0108));
    banks.log(injected(Class::Corrected, 0x8000_0110));
    assert_eq!(rt;
        banks.bank(0).read_reg(FIRST_STATUS),
        Some(0x0002_0000_0005_0407)
    );
    assert_eq!(rt; banks.bank(0).read_reg(CONTROL + ADDR), Some(0x8000_0108));
}

#[test]
fn a_consumption_is_kept_with_its_use_and_pc(rt: HostRuntime) {
    let mut banks = Banks::new();
    banks.log(Event::consumption(UseKind::Fetch, 0, 0x8000_0008, 0x8000_0008));
    let kept = banks.bank(2).kept(0);
    assert_eq!(rt;
        kept.map(|view| (view.kept.class, view.kept.info, view.kept.suppl)),
        Some((Class::Critical, 0, 0x8000_0008))
    );
}

#[test]
fn writes_of_the_control_register(rt: HostRuntime) {
    let mut banks = Banks::new();
    banks.log(corrected());
    // `sinv` before `srdp`: the record stays, and is marked as read.
    assert_eq!(rt; banks.write_reg(0, CONTROL, 0xFFFF_0003_0000_0057), true);
    assert_eq!(rt; banks.bank(0).read_reg(CONTROL), Some(0x57));
    assert_eq!(rt;
        banks.bank(0).read_reg(FIRST_STATUS),
        Some(0x0001_0000_0001_0503)
    );
    // An event clears `rdip`, so that `sinv` leaves the record.
    banks.log(corrected());
    banks.write_reg(0, CONTROL, 0x1_0000_0057);
    assert_eq!(rt;
        banks.bank(0).read_reg(FIRST_STATUS),
        Some(0x0002_0000_0001_0443)
    );
    banks.write_reg(2, CONTROL, 0);
    assert_eq!(rt; banks.bank(2).read_reg(CONTROL), Some(1));
}

#[test]
fn an_injection_comes_as_many_steps_later_as_it_says(rt: HostRuntime) {
    let mut banks = Banks::new();
    banks.set_now(2);
    count_down(&mut banks);
    stage(&mut banks, 0, 0, Class::Critical, 3, 0x8000_0100);
    // The upper bits of the control register show the steps left.
    assert_eq!(rt;
        banks.bank(0).read_reg(CONTROL),
        Some(0x0003_0000_0000_0057)
    );
    for (n, want) in [(3, None), (4, None), (5, Some((0, 0)))] {
        banks.set_now(n);
        count_down(&mut banks);
        assert_eq!(rt; banks.first_critical(), want, "step {n}");
    }
    assert_eq!(rt; banks.bank(0).read_reg(FIRST_STATUS), Some(0x0005_0409));
    assert_eq!(rt; banks.bank(0).read_reg(CONTROL + TIMESTAMP), Some(5));
}
