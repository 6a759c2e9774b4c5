//! The text of a records file.

ghost use Rattle.std.specs.Prelude.{◌≡◌, ◌<◌, ◌^◌, ◌++◌, length, drop, IfOk, IfErr, OnOk};
ghost use Rattle.std.specs.List.{AllByRecursion};
ghost use Rattle.cper_sections.specs.Reading.{record_of};
ghost use Rattle.ras_read.specs.Sections.{IsInside};
ghost use Rattle.ras_read.specs.Records.{IsWhole, bad_at, record_line, record_lines, records_text};
ghost use Rattle.ras_read.specs.Files.{IsRefusalOf};

use crate::refused::ReadRefused;
use crate::sections::push_sections;
use crate::values::push_number;
use cper_sections::{Cper, read_record};
use std::alloc::{AllocError, Global};

/// The text of a records file: for each record a line, and one for each of its sections.
pub(crate) fn records_text(alloc: Global, b: &[u8]) -> Result<Vec<u8>, ReadRefused>
    requires { length b.now < 2 ^ 32 }
    ensures text { IfOk result (λ v. records_text b.now ≡ Ok v.items) }
    ensures refused { IfErr result (IsRefusalOf (records_text b.now)) }
{
    let mut out = Vec::new(alloc);
    let mut at = 0;
    while at < b.len() {
        let cper = record_at(b, at)?;
        push_record(&mut out, &b[at..], &cper)?;
        at += cper.length as usize;
    }
    Ok(out)
}

// The record that begins at an offset, which is in the file.
#[tactic(auto, using(crate::proofs::InsideLemmas::record_whole))]
fn record_at(b: &[u8], at: usize) -> Result<Cper, ReadRefused>
    requires count { length b.now < 2 ^ 32 }
    requires inside { at < length b.now }
    ensures exact { result ≡ bad_at at (record_of (drop at b.now)) }
    ensures whole { IfOk result (IsWhole (drop at b.now)) }
{
    match read_record(&b[at..]) {
        Ok(cper) => Ok(cper),
        Err(why) => Err(ReadRefused::Bad { at: at as u32, why }),
    }
}

// The lines of a record, whose sections lie in `b`.
#[tactic(auto, unfolding(crate::specs::Records::record_lines))]
fn push_record(out: &mut Vec<u8>, b: &[u8], cper: &Cper) -> Result<(), AllocError>
    requires { AllByRecursion (IsInside b.now) cper.now.sections.items }
    ensures { OnOk result (out.new.items ≡ out.old.items ++ record_lines b.now cper.now) }
{
    push_record_line(out, cper)?;
    push_sections(out, b, cper.sections.as_slice())
}

#[tactic(auto, unfolding(crate::specs::Records::record_line))]
fn push_record_line(out: &mut Vec<u8>, cper: &Cper) -> Result<(), AllocError>
    ensures { OnOk result (out.new.items ≡ out.old.items ++ record_line cper.now) }
{
    push_number(out, b"record ", cper.id)?;
    push_number(out, b" severity ", u64::from(cper.severity))?;
    push_number(out, b" at ", cper.at)?;
    push_number(out, b" length ", u64::from(cper.length))?;
    push_number(out, b" sections ", cper.sections.len() as u64)?;
    out.extend_from_slice(b"\n")
}
