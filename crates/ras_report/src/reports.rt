//! The report of a run.

ghost use Rattle.std.specs.Prelude.{◌≡◌, ◌+◌, ◌≤◌, ◌++◌, [], codes, length};
ghost use Rattle.arrayvec.specs.ArrayVec.{array_vec_len};
ghost use Rattle.ras_report.specs.declared.text.TheConstants.{REPORT_ROOM};
ghost use Rattle.ras_report.specs.Reports.{beyond_text, ending_line, report_of, flat_ending_line, flat_report_of};
ghost use Rattle.ras_report.specs.Harts.{hart_lines};

use crate::harts::push_hart;
use crate::stops::push_stop;
use crate::text::{Report, push, push_address, push_number};
use ras_bits::word_address;
use ras_firmware::Records;
use ras_machine::{Ending, Flat, Machine};

// Appends the step and the word of the first third flip, where there was one.
fn push_beyond(text: &mut Report, beyond: Option<(u64, u32)>)
    requires { array_vec_len text.old + 39 ≤ REPORT_ROOM }
    ensures items { text.new.items ≡ text.old.items ++ beyond_text beyond }
    ensures len { array_vec_len text.new ≤ array_vec_len text.old + 39 }
{
    match beyond {
        Some((step, w)) => {
            push_number(text, step);
            push(text, b":");
            push_address(text, word_address(w));
        }
        None => push(text, b"none"),
    }
}

// Appends the line of an ending.
fn push_ending(text: &mut Report, ending: &Ending, records: &Records, beyond: Option<(u64, u32)>)
    requires { array_vec_len text.old + 198 ≤ REPORT_ROOM }
    ensures items { text.new.items ≡ text.old.items ++ ending_line ending.now records.now beyond }
    ensures len { array_vec_len text.new ≤ array_vec_len text.old + 198 }
{
    push(text, b"stop=");
    push_stop(text, ending.stop);
    push(text, b" steps=");
    push_number(text, ending.steps);
    push(text, b" records=");
    push_number(text, records.list().len() as u64);
    push(text, b" dropped=");
    push_number(text, records.dropped());
    push(text, b" beyond=");
    push_beyond(text, beyond);
    push(text, b"\n");
}

// Appends the lines of a machine's harts, in the order of their numbers.
#[tactic(auto, using(crate::proofs::Lines::lines_none))]
fn push_harts(text: &mut Report, m: &Machine)
    requires { array_vec_len text.old + 3132 ≤ REPORT_ROOM }
    ensures { text.new.items ≡ text.old.items
        ++ hart_lines [] m.now.state.shared.harts m.now.settings.harts }
{
    let settings = m.settings();
    for i in 0..settings.harts {
        push_hart(text, b"", i, m.hart(i));
    }
}

/// Replaces the contents of `out` by the report of a run that ended as `e`: a line with the stop,
/// the steps, the numbers of records kept and dropped and the first third flip, and a line for each
/// hart.
pub fn report(m: &Machine, e: &Ending, out: &mut Report)
    ensures { out.new.items ≡ report_of e.now m.now.state.firmware.records m.now.state.beyond
        m.now.state.shared.harts m.now.settings.harts }
{
    out.clear();
    push_ending(out, e, m.records(), m.beyond());
    push_harts(out, m);
}

/// Replaces the contents of `out` by the lines of a machine's harts, as the report has them.
pub fn registers(m: &Machine, out: &mut Report)
    ensures { out.new.items ≡ hart_lines [] m.now.state.shared.harts m.now.settings.harts }
{
    out.clear();
    push_harts(out, m);
}

// Appends the line of an ending of the flat machine.
fn push_flat_ending(text: &mut Report, ending: &Ending)
    requires { array_vec_len text.old + 98 ≤ REPORT_ROOM }
    ensures items { text.new.items ≡ text.old.items ++ flat_ending_line ending.now }
    ensures len { array_vec_len text.new ≤ array_vec_len text.old + 98 }
{
    push(text, b"flat stop=");
    push_stop(text, ending.stop);
    push(text, b" steps=");
    push_number(text, ending.steps);
    push(text, b"\n");
}

// Appends the lines of the flat machine's harts, in the order of their numbers.
#[tactic(auto, using(crate::proofs::Lines::lines_none))]
fn push_flat_harts(text: &mut Report, f: &Flat)
    requires { array_vec_len text.old + 3152 ≤ REPORT_ROOM }
    ensures { text.new.items ≡ text.old.items
        ++ hart_lines (codes "flat ") f.now.state.harts (length f.now.state.harts) }
{
    for i in 0..f.harts() {
        push_hart(text, b"flat ", i, f.hart(i));
    }
}

/// Replaces the contents of `out` by the report of a run of the flat machine that ended as `e`: a
/// line with the stop and the steps, and a line for each hart, each of them behind `flat`.
pub fn flat_report(f: &Flat, e: &Ending, out: &mut Report)
    ensures { out.new.items ≡ flat_report_of e.now f.now.state.harts }
{
    out.clear();
    push_flat_ending(out, e);
    push_flat_harts(out, f);
}
