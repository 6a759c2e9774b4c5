//! The text that names a record, in the place of a field-replaceable unit's name.

ghost use Rattle.std.specs.Prelude.{◌≡◌, ◌+◌, ◌%◌, true};
ghost use Rattle.poison_mem.specs.RecordId.{names_record};
ghost use Rattle.cper_sections.specs.Fru.{fru_text};

use poison_mem::RecordView;

/// The text of a record in the place of the field-replaceable unit's name, as `b0r0 c00001 s100 m0`: bank, record, the
/// number of corrected errors with a plus sign where there were more, the classes that came, and whether there were several
/// of the worst. A zero ends it. The view is of a record that there is.
pub fn fru_text(v: &RecordView) -> [u8; 20]
    requires { names_record v.now.kept.bank v.now.kept.rec ≡ true }
    ensures { result ≡ fru_text v.now }
{
    [
        b'b',
        b'0' + v.kept.bank,
        b'r',
        b'0' + v.kept.rec,
        b' ',
        b'c',
        digit(v.cec / 10_000),
        digit(v.cec / 1_000),
        digit(v.cec / 100),
        digit(v.cec / 10),
        digit(v.cec),
        if v.ceco { b'+' } else { b' ' },
        b's',
        b'0' + u8::from(v.ce),
        b'0' + u8::from(v.ued),
        b'0' + u8::from(v.uec),
        b' ',
        b'm',
        b'0' + u8::from(v.mo),
        0,
    ]
}

// The last decimal digit, as text.
fn digit(n: u16) -> u8
    ensures { result ≡ 48 + n % 10 }
{
    b'0' + (n % 10) as u8
}
