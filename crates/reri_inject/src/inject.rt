//! Staging an injection, and counting down.

ghost use Rattle.std.specs.Prelude.{◌≡◌, ◌<◌, ◌≤◌, Some};
ghost use Rattle.reri_bank.specs.Banks.{banks_staged, with_bank};
ghost use Rattle.reri_bank.specs.Bank.{with_record};
ghost use Rattle.reri_inject.specs.Inject.{staged_now, injected, state_counted, each_counted};

use poison_mem::{Class, Event, EventKind, EventLog};
use reri_bank::{Banks, Staged};

/// Stages an injection into a record of bank 0 or 1, in place of one that waits there: after `delay` calls of
/// `count_down` it is logged as an event of this class at this address.
///
/// There are such a bank and record, and `delay` is at least 1.
pub fn stage(banks: &mut Banks, bank: u8, rec: u8, class: Class, delay: u16, addr: u64)
    requires bank { bank < 2 }
    requires rec { rec < 2 }
    requires delay { 1 ≤ delay }
    ensures { banks.new ≡ banks_staged banks.old bank rec (Some (staged_now class delay addr)) }
{
    let staged = Staged {
        class,
        addr,
        left: delay,
    };
    banks.set_staged(bank, rec, Some(staged));
}

/// The event of an injection.
fn injected(bank: u8, rec: u8, staged: Staged) -> Event
    ensures { result ≡ injected bank rec staged }
{
    Event::new(EventKind::Injected(staged.class), bank, rec, staged.addr)
}

/// Lowers the staged count of a record by one. Where it reaches 0 the injection is logged.
fn count_record(banks: &mut Banks, bank: u8, rec: u8)
    requires bank { bank < 2 }
    requires rec { rec < 2 }
    ensures { banks.new ≡ with_bank banks.old bank (λ k. with_record k rec (state_counted banks.old.step bank rec)) }
{
    match banks.bank(bank).staged(rec) {
        None => {}
        Some(staged) if staged.left > 1 => {
            let left = staged.left - 1;
            banks.set_staged(bank, rec, Some(Staged { left, ..staged }));
        }
        Some(staged) => {
            banks.set_staged(bank, rec, None);
            banks.log(injected(bank, rec, staged));
        }
    }
}

/// Lowers each staged count by one, in the order of banks and records. One that reaches 0 is taken away and logged as an
/// event.
pub fn count_down(banks: &mut Banks)
    ensures { banks.new ≡ each_counted banks.old }
{
    count_record(banks, 0, 0);
    count_record(banks, 0, 1);
    count_record(banks, 1, 0);
    count_record(banks, 1, 1);
}
