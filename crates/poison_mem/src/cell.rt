//! A word as a reader sees it, and as a memory keeps it.

ghost use Rattle.std.specs.Prelude.{◌≡◌, ◌<◌};
ghost use Rattle.poison_mem.specs.Merge.{byte_after, blended, merged_value, merged_cell};
ghost use Rattle.poison_mem.specs.UseKind.{use_number};

/// A word of memory as a reader sees it.
#[derive(Clone, Copy, Debug, PartialEq, Eq)]
pub enum Cell {
    /// The word's value.
    Good(u64),
    /// The word's value is lost.
    Poison,
}

/// A word as a memory keeps it: a codeword of 72 bits, its poison mark, and the flips counted since it was written.
#[derive(Clone, Copy, Debug, PartialEq, Eq)]
pub struct CellState {
    /// The codeword's data bits.
    pub value: u64,
    /// The codeword's check bits.
    pub check: u8,
    /// Whether the word is marked as lost.
    pub mark: bool,
    /// The flips since the word was last written, at most 3. Flips of a marked word aren't counted.
    pub count: u8,
}

/// What a hart reads a word for.
#[derive(Clone, Copy, Debug, PartialEq, Eq)]
pub enum UseKind {
    /// An instruction.
    Fetch,
    /// A page-table entry.
    Walk,
    /// A load.
    Load,
    /// An atomic operation, load-reserved among them.
    Amo,
    /// A firmware call that reads memory.
    Sbi,
}

impl UseKind {
    /// The number of the use in an event: 0 to 4, in the order above.
    pub fn number(self) -> u8
        ensures { result ≡ use_number self }
    {
        match self {
            UseKind::Fetch => 0,
            UseKind::Walk => 1,
            UseKind::Load => 2,
            UseKind::Amo => 3,
            UseKind::Sbi => 4,
        }
    }
}

/// A byte of a word after a store: that of `value` where the mask's bit is set, else that of `old`.
fn byte_after(old: &[u8; 8], value: &[u8; 8], mask: u8, i: usize) -> u8
    requires { i < 8 }
    ensures { result ≡ byte_after old.now value.now mask i }
{
    if mask >> i & 1 == 1 { value[i] } else { old[i] }
}

/// The word with the bytes of the mask's set bits replaced by those of `value`.
#[tactic(auto, unfolding(crate::specs::Merge::blended))]
fn blended(old: u64, value: u64, mask: u8) -> u64
    ensures { result ≡ blended old value mask }
{
    let old = old.to_le_bytes();
    let value = value.to_le_bytes();
    u64::from_le_bytes([
        byte_after(&old, &value, mask, 0),
        byte_after(&old, &value, mask, 1),
        byte_after(&old, &value, mask, 2),
        byte_after(&old, &value, mask, 3),
        byte_after(&old, &value, mask, 4),
        byte_after(&old, &value, mask, 5),
        byte_after(&old, &value, mask, 6),
        byte_after(&old, &value, mask, 7),
    ])
}

/// A word after a store of the bytes of a mask.
pub(crate) fn merged(old: u64, value: u64, mask: u8) -> u64
    ensures { result ≡ merged_value old value mask }
{
    if mask == 0xFF {
        value
    } else {
        blended(old, value, mask)
    }
}

/// A cell after a store of the bytes of `v` whose bits are set in `mask`. Bit i stands for byte i.
///
/// A whole store makes the cell good. Under any other mask poison stays poison.
pub fn merge(c: Cell, v: u64, mask: u8) -> Cell
    ensures { result ≡ merged_cell c v mask }
{
    match c {
        Cell::Good(old) => Cell::Good(merged(old, v, mask)),
        Cell::Poison if mask == 0xFF => Cell::Good(v),
        Cell::Poison => Cell::Poison,
    }
}
