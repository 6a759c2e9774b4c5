//! The lines that say why the program didn't run.

ghost use Rattle.std.specs.Prelude.{◌≡◌, ◌+◌, ◌≤◌, ◌++◌, length};
ghost use Rattle.arrayvec.specs.ArrayVec.{array_vec_len};
ghost use Rattle.ras_cli.specs.declared.text.TheConstants.{TEXT_ROOM};
ghost use Rattle.ras_cli.specs.Refusals.{too_long, segment_text, rule_text, image_refused, why_text, script_refused};
ghost use Rattle.ras_cli.specs.Refusals.{cper_text, table_text, refused_at, file_refused};

use crate::files::FileKind;
use crate::text::{Text, push_number, push_text};
use acpi_tables::TableRefused;
use cper_sections::CperRefused;
use elf_load::ElfRefused;
use fault_script::Why;
use ras_read::ReadRefused;

/// The line for words that ask for nothing.
pub const USAGE: &[u8] =
    b"usage: ras run|compare IMAGE [options] | ras debug IMAGE COMMANDS [options] | ras read FILE | ras demo NUMBER\n";

/// The line for a file that is longer than its limit.
pub fn too_long(file: FileKind) -> Text
    ensures { result.items ≡ too_long file }
{
    let mut text = Text::new();
    push_text(&mut text, b"ras: ");
    push_text(&mut text, file.word());
    push_text(&mut text, b" too long: limit ");
    push_number(&mut text, file.limit());
    push_text(&mut text, b"\n");
    text
}

// Appends a rule of one program header, with its number.
fn push_segment(text: &mut Text, rule: &[u8], k: u16)
    requires { array_vec_len text.old + (length rule.now + 29) ≤ TEXT_ROOM }
    ensures items { text.new.items ≡ text.old.items ++ segment_text rule.now k }
    ensures len { array_vec_len text.new ≤ array_vec_len text.old + (length rule.now + 29) }
{
    push_text(text, rule);
    push_text(text, b" segment ");
    push_number(text, u64::from(k));
}

// Appends which rule an image breaks.
fn push_rule(text: &mut Text, refusal: ElfRefused)
    requires { array_vec_len text.old + 40 ≤ TEXT_ROOM }
    ensures items { text.new.items ≡ text.old.items ++ rule_text refusal }
    ensures len { array_vec_len text.new ≤ array_vec_len text.old + 40 }
{
    match refusal {
        ElfRefused::Short => push_text(text, b"short"),
        ElfRefused::Magic => push_text(text, b"magic"),
        ElfRefused::Class => push_text(text, b"class"),
        ElfRefused::ExecType => push_text(text, b"exectype"),
        ElfRefused::Machine => push_text(text, b"machine"),
        ElfRefused::Compressed => push_text(text, b"compressed"),
        ElfRefused::HardFloat => push_text(text, b"hardfloat"),
        ElfRefused::Reduced => push_text(text, b"reduced"),
        ElfRefused::Headers => push_text(text, b"headers"),
        ElfRefused::TooMany => push_text(text, b"toomany"),
        ElfRefused::NoLoad => push_text(text, b"noload"),
        ElfRefused::FilePart(k) => push_segment(text, b"filepart", k),
        ElfRefused::Sizes(k) => push_segment(text, b"sizes", k),
        ElfRefused::Outside(k) => push_segment(text, b"outside", k),
        ElfRefused::Entry => push_text(text, b"entry"),
        ElfRefused::NoMemory => push_text(text, b"nomemory"),
    }
}

/// The line for an image that is refused.
pub fn image_refused(refusal: ElfRefused) -> Text
    ensures { result.items ≡ image_refused refusal }
{
    let mut text = Text::new();
    push_text(&mut text, b"ras: image refused: ");
    push_rule(&mut text, refusal);
    push_text(&mut text, b"\n");
    text
}

// Why a line of a script is refused.
fn why_text(why: Why) -> &'static [u8]
    ensures text { result.now ≡ why_text why }
    ensures short { length result.now ≤ 7 }
{
    match why {
        Why::Bytes => b"bytes",
        Why::Word => b"word",
        Why::Count => b"count",
        Why::Number => b"number",
        Why::Address => b"address",
        Why::Bit => b"bit",
        Why::Bank => b"bank",
        Why::Class => b"class",
        Why::Delay => b"delay",
        Why::Step => b"step",
        Why::TooMany => b"toomany",
    }
}

/// The line for a script that is refused at this line, counted from 1.
pub fn script_refused(line: u32, why: Why) -> Text
    ensures { result.items ≡ script_refused line why }
{
    let mut text = Text::new();
    push_text(&mut text, b"ras: script refused: line ");
    push_number(&mut text, u64::from(line));
    push_text(&mut text, b": ");
    push_text(&mut text, why_text(why));
    push_text(&mut text, b"\n");
    text
}

// Which rule a CPER record breaks.
fn cper_text(why: CperRefused) -> &'static [u8]
    ensures text { result.now ≡ cper_text why }
    ensures short { length result.now ≤ 12 }
{
    match why {
        CperRefused::Short => b"short",
        CperRefused::Signature => b"signature",
        CperRefused::EndMark => b"endmark",
        CperRefused::Length => b"length",
        CperRefused::Sections => b"sections",
        CperRefused::SectionPlace(_) => b"sectionplace",
    }
}

// Which rule a table or a status block breaks.
fn table_text(why: TableRefused) -> &'static [u8]
    ensures text { result.now ≡ table_text why }
    ensures short { length result.now ≤ 12 }
{
    match why {
        TableRefused::Short => b"short",
        TableRefused::Signature => b"signature",
        TableRefused::Length => b"length",
        TableRefused::Sum => b"sum",
        TableRefused::Source(_) => b"source",
        TableRefused::Entry(_) => b"entry",
    }
}

// The line for a file that breaks this rule at an offset.
fn refused_at(at: u32, rule: &[u8]) -> Text
    requires { length rule.now ≤ 12 }
    ensures { result.items ≡ refused_at at rule.now }
{
    let mut text = Text::new();
    push_text(&mut text, b"ras: file refused at ");
    push_number(&mut text, u64::from(at));
    push_text(&mut text, b": ");
    push_text(&mut text, rule);
    push_text(&mut text, b"\n");
    text
}

/// The line for a file that isn't printed, by its first place that is refused: the offset of a record,
/// of a table or of a status block, or 0 for a file of another kind.
pub fn file_refused(refusal: ReadRefused) -> Text
    ensures { result.items ≡ file_refused refusal }
{
    match refusal {
        ReadRefused::Kind => refused_at(0, b"kind"),
        ReadRefused::Bad { at, why } => refused_at(at, cper_text(why)),
        ReadRefused::Table { at, why } => refused_at(at, table_text(why)),
        ReadRefused::NoMemory => refused_at(0, b"nomemory"),
    }
}
