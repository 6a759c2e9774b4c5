//! Where a bank's registers are, and the bits of a record's registers (RERI 1.0: control_i and status_i).

ghost use Rattle.std.specs.Prelude.{◌≡◌, ◌<◌, IfSome};
ghost use Rattle.std.specs.Option.{option_copied};
ghost use Rattle.reri_bank.specs.Layout.{control_word, control_value, status_word, status_of_view, shown_count, stands_for_record, view_value, ComesBack};
ghost use Rattle.poison_mem.specs.RecordView.{greatest_flag, IsSoundView};
ghost use Rattle.reri_bank.specs.Views.{PriFits};

use crate::record::MOST_COUNTED;
use poison_mem::{Class, Event, RecordView};
use ras_bits::{get_field, has_bit};

/// The offset of the register that identifies a bank, which reads 0 (RERI: vendor_n_imp_id).
pub const BANK_ID: u16 = 0;

/// The offset of the register that describes a bank (RERI: bank_info).
pub const BANK_INFO: u16 = 8;

/// The offset of the register that says which records are valid (RERI: valid_summary).
pub const VALID_SUMMARY: u16 = 16;

/// The offset of the first record's control register. The other registers of a record come behind its own.
pub const CONTROL: u16 = 64;

/// How far a record's registers lie behind those of the record before it.
pub const STRIDE: u16 = 64;

/// The offset of a record's status register from its control register.
pub const STATUS: u16 = 8;

/// The offset of the kept event's address from its record's control register (RERI: addr_info_i).
pub const ADDR: u16 = 16;

/// The offset of what the kept event tells besides, likewise (RERI: info_i).
pub const INFO: u16 = 24;

/// The offset of what it tells besides that, likewise (RERI: suppl_info_i).
pub const SUPPL: u16 = 32;

/// The offset of the step of the kept event, likewise (RERI: timestamp_i).
pub const TIMESTAMP: u16 = 40;

// The lowest bits of the fields of a control register. `ELSE` is one bit wide, as are `CECE`, `SINV` and `SRDP`; `CES`,
// `UEDS` and `UECS` are two, and `EID` is sixteen.
pub(crate) const ELSE: u32 = 0;

pub(crate) const CECE: u32 = 1;

pub(crate) const CES: u32 = 2;

pub(crate) const UEDS: u32 = 4;

pub(crate) const UECS: u32 = 6;

/// The bit of a control register that empties a record.
pub const SINV: u32 = 32;

/// The bit of a control register that marks a record as read.
pub const SRDP: u32 = 33;

pub(crate) const EID: u32 = 48;

// The lowest bits of the fields of a status register. `PRI` is two bits wide, `CODE` eight and `CEC` sixteen, the others
// one.
pub(crate) const V: u32 = 0;

pub(crate) const CE: u32 = 1;

pub(crate) const UED: u32 = 2;

pub(crate) const UEC: u32 = 3;

pub(crate) const PRI: u32 = 4;

pub(crate) const MO: u32 = 6;

pub(crate) const CECO: u32 = 7;

/// The bit of a status register that says that its record was read.
pub const RDIP: u32 = 8;

pub(crate) const SCRUB: u32 = 9;

pub(crate) const AV: u32 = 10;

pub(crate) const CODE: u32 = 16;

pub(crate) const CEC: u32 = 48;

/// What a record does with its events: bits 7:0 of its control register.
#[derive(Clone, Copy, Debug, PartialEq, Eq)]
pub struct Control {
    /// Events are logged (`else`).
    pub logging: bool,
    /// The count of corrected errors is shown; they are counted all the same.
    pub cece: bool,
    /// How corrected errors are signalled to the firmware, below 4; 0 is not at all.
    pub ces: u8,
    /// How deferred errors are signalled, likewise.
    pub ueds: u8,
    /// How critical errors are signalled, likewise.
    pub uecs: u8,
}

/// The control register with the fields of `c`, and in bits 63:48 the steps left of a staged injection.
///
/// `ces`, `ueds` and `uecs` are below 4.
pub fn control_bits(c: Control, eid: u16) -> u64
    requires ces { c.ces < 4 }
    requires ueds { c.ueds < 4 }
    requires uecs { c.uecs < 4 }
    ensures word { result ≡ control_word c eid }
    ensures back { control_value result ≡ c }
{
    (1 << ELSE) * u64::from(c.logging)
        + (1 << CECE) * u64::from(c.cece)
        + (1 << CES) * u64::from(c.ces)
        + (1 << UEDS) * u64::from(c.ueds)
        + (1 << UECS) * u64::from(c.uecs)
        + (1 << EID) * u64::from(eid)
}

/// What bits 7:0 of a control register say.
pub fn control_of(v: u64) -> Control
    ensures value { result ≡ control_value v }
    ensures ces { result.ces < 4 }
    ensures ueds { result.ueds < 4 }
    ensures uecs { result.uecs < 4 }
{
    Control {
        logging: has_bit(v, ELSE),
        cece: has_bit(v, CECE),
        ces: get_field(v, CES, 2) as u8,
        ueds: get_field(v, UEDS, 2) as u8,
        uecs: get_field(v, UECS, 2) as u8,
    }
}

/// The number of corrected errors that is shown.
fn shown_count(view: &RecordView, cece: bool) -> u16
    ensures { result ≡ shown_count view.now cece }
{
    if cece { view.cec } else { 0 }
}

/// The status register of a view.
fn status_of_view(view: &RecordView, cece: bool, rdip: bool) -> u64
    requires { view.now.kept.pri < 4 }
    ensures { result ≡ status_of_view view.now cece rdip }
{
    let code = view.kept.code;
    let pri = view.kept.pri;
    let count = shown_count(view, cece);
    (1 << V)
        + (1 << CE) * u64::from(view.ce)
        + (1 << UED) * u64::from(view.ued)
        + (1 << UEC) * u64::from(view.uec)
        + (1 << PRI) * u64::from(pri)
        + (1 << MO) * u64::from(view.mo)
        + (1 << CECO) * u64::from(view.ceco & cece)
        + (1 << RDIP) * u64::from(rdip)
        + (1 << SCRUB) * u64::from(view.kept.scrub)
        + (1 << AV)
        + (1 << CODE) * u64::from(code)
        + (1 << CEC) * u64::from(count)
}

/// The status register of a record that keeps this view, or 0 of an empty one.
///
/// A given view has a `pri` below 4. With `cece` clear the count of corrected errors reads 0.
pub fn status_bits(v: Option<&RecordView>, cece: bool, rdip: bool) -> u64
    requires { PriFits (option_copied v) }
    ensures { result ≡ status_word (option_copied v.entry) cece rdip }
{
    match v {
        None => 0,
        Some(view) => status_of_view(view, cece, rdip),
    }
}

/// Whether a status stands for a record.
fn stands_for_record(status: u64) -> bool
    ensures { result ≡ stands_for_record status }
{
    let is_valid = has_bit(status, V) & has_bit(status, AV);
    let is_flagged = has_bit(status, CE) | has_bit(status, UED) | has_bit(status, UEC);
    let is_clear = (get_field(status, 11, 5) == 0) & (get_field(status, 24, 24) == 0);
    let is_full = get_field(status, CEC, 16) == u64::from(MOST_COUNTED);
    is_valid & is_flagged & is_clear & (!has_bit(status, CECO) | is_full)
}

/// The greatest class that is flagged, where one is.
fn greatest_flag(ued: bool, uec: bool) -> Class
    ensures { result ≡ greatest_flag ued uec }
{
    if uec {
        Class::Critical
    } else if ued {
        Class::Deferred
    } else {
        Class::Corrected
    }
}

/// The view that a record's registers stand for; it is sound.
///
/// None exactly where the status stands for no record: `v` or `av` is clear, no class is flagged, one of bits 15:11 and
/// 47:24 is set, or `ceco` is set beside a count that isn't full.
pub fn view_of(
    status: u64,
    addr: u64,
    info: u64,
    suppl: u64,
    time: u64,
    bank: u8,
    rec: u8,
) -> Option<RecordView>
    ensures value { result ≡ view_value status addr info suppl time bank rec }
    ensures sound { IfSome result IsSoundView }
{
    if !stands_for_record(status) {
        return None;
    }
    let ued = has_bit(status, UED);
    let uec = has_bit(status, UEC);
    let kept = Event {
        bank,
        rec,
        class: greatest_flag(ued, uec),
        pri: get_field(status, PRI, 2) as u8,
        code: get_field(status, CODE, 8) as u8,
        scrub: has_bit(status, SCRUB),
        addr,
        info,
        suppl,
        at: time,
    };
    Some(RecordView {
        kept,
        ce: has_bit(status, CE),
        ued,
        uec,
        mo: has_bit(status, MO),
        cec: get_field(status, CEC, 16) as u16,
        ceco: has_bit(status, CECO),
    })
}

/// Of a sound view the status register, with its count shown, gives that view back, with what the other registers hand.
pub fn views_come_back_from_their_registers(v: &RecordView)
    ensures { IsSoundView v.now → ComesBack v.now }
{
    // These reads tell the prover that both numbers fit their types.
    let _count = v.cec;
    let _code = v.kept.code;
}
