//! What the bits of a page-table entry say.

ghost use Rattle.std.specs.Prelude.{◌≡◌, ◌<◌, ◌≤◌, ◌^◌};
ghost use Rattle.ras_bits.specs.Bits.{has_bit};
ghost use Rattle.sv39_walk.specs.Entry.{page_number, is_malformed, is_pointer, has_leaf_bits, is_misaligned_superpage, lacks_permission, is_outside_mode, is_not_accessed, is_not_dirty, denies};
ghost use Rattle.sv39_walk.specs.Walking.{leaf_address, meaning_of};
ghost use Rattle.sv39_walk.specs.Progress.{HasTableAddress};

use crate::request::Request;
use ras_bits::{Access, Mode, get_field, has_bit};

/// How many bytes a page has, and so a table.
pub const PAGE_BYTES: u64 = 4096;

/// What an entry means to an access.
#[derive(Clone, Copy)]
pub enum EntryMeaning {
    /// The access is refused.
    PageFault,
    /// The table at this physical address comes next.
    NextTable(u64),
    /// The address is translated to this one.
    Translated(u64),
}

/// A page-table entry.
#[derive(Clone, Copy)]
pub struct PageTableEntry(pub u64);

impl PageTableEntry {
    /// Bit V.
    fn is_valid(self) -> bool
        ensures { result ≡ has_bit self.0 0 }
    {
        has_bit(self.0, 0)
    }

    /// Bit R.
    fn is_readable(self) -> bool
        ensures { result ≡ has_bit self.0 1 }
    {
        has_bit(self.0, 1)
    }

    /// Bit W.
    fn is_writable(self) -> bool
        ensures { result ≡ has_bit self.0 2 }
    {
        has_bit(self.0, 2)
    }

    /// Bit X.
    fn is_executable(self) -> bool
        ensures { result ≡ has_bit self.0 3 }
    {
        has_bit(self.0, 3)
    }

    /// Bit U.
    fn is_for_user(self) -> bool
        ensures { result ≡ has_bit self.0 4 }
    {
        has_bit(self.0, 4)
    }

    /// Bit A.
    fn is_accessed(self) -> bool
        ensures { result ≡ has_bit self.0 6 }
    {
        has_bit(self.0, 6)
    }

    /// Bit D.
    fn is_dirty(self) -> bool
        ensures { result ≡ has_bit self.0 7 }
    {
        has_bit(self.0, 7)
    }

    /// The physical page number (PPN), bits 53:10.
    fn page_number(self) -> u64
        ensures value { result ≡ page_number self.0 }
        ensures below { result < 2 ^ 44 }
    {
        get_field(self.0, 10, 44)
    }

    /// Whether it is no entry of any table: invalid, writable but not readable, or with a reserved bit.
    #[tactic(auto, unfolding(crate::specs::Entry::is_malformed, crate::specs::Entry::is_invalid, crate::specs::Entry::is_writable_only, crate::specs::Entry::has_reserved_bits))]
    fn is_malformed(self) -> bool
        ensures { result ≡ is_malformed self.0 }
    {
        let is_invalid = !self.is_valid();
        let is_readable = self.is_readable();
        let is_writable = self.is_writable();
        let reserved = get_field(self.0, 54, 10);
        is_invalid || (is_writable && !is_readable) || !(reserved == 0)
    }

    /// Whether it points to a table.
    #[tactic(auto, unfolding(crate::specs::Entry::is_pointer))]
    fn is_pointer(self) -> bool
        ensures { result ≡ is_pointer self.0 }
    {
        !self.is_readable() && !self.is_executable()
    }

    /// Whether a bit is set that a pointer must have clear.
    #[tactic(auto, unfolding(crate::specs::Entry::has_leaf_bits))]
    fn has_leaf_bits(self) -> bool
        ensures { result ≡ has_leaf_bits self.0 }
    {
        self.is_accessed() || self.is_dirty() || self.is_for_user()
    }

    #[tactic(auto, unfolding(crate::specs::Entry::is_misaligned_superpage))]
    fn is_misaligned_superpage(self, level: u8) -> bool
        requires { level ≤ 2 }
        ensures { result ≡ is_misaligned_superpage level self.0 }
    {
        self.page_number() % (1 << (9 * level as u32)) != 0
    }

    #[tactic(auto, unfolding(crate::specs::Entry::lacks_permission))]
    fn lacks_permission(self, request: Request) -> bool
        ensures { result ≡ lacks_permission request self.0 }
    {
        match request.kind {
            Access::Fetch => !self.is_executable(),
            Access::Load => !self.is_readable() && !(request.mxr && self.is_executable()),
            Access::Store => !self.is_writable(),
        }
    }

    #[tactic(auto, unfolding(crate::specs::Entry::is_outside_mode))]
    fn is_outside_mode(self, request: Request) -> bool
        ensures { result ≡ is_outside_mode request self.0 }
    {
        match (request.mode, request.kind) {
            (Mode::User, _) => !self.is_for_user(),
            (Mode::Supervisor, Access::Fetch) => self.is_for_user(),
            (Mode::Supervisor, Access::Load | Access::Store) => self.is_for_user() && !request.sum,
        }
    }

    #[tactic(auto, unfolding(crate::specs::Entry::is_not_accessed))]
    fn is_not_accessed(self) -> bool
        ensures { result ≡ is_not_accessed self.0 }
    {
        !self.is_accessed()
    }

    #[tactic(auto, unfolding(crate::specs::Entry::is_not_dirty))]
    fn is_not_dirty(self, request: Request) -> bool
        ensures { result ≡ is_not_dirty request self.0 }
    {
        match request.kind {
            Access::Fetch | Access::Load => false,
            Access::Store => !self.is_dirty(),
        }
    }

    /// Whether a leaf of this level refuses the access. `level` is 0, 1 or 2.
    #[tactic(auto, unfolding(crate::specs::Entry::denies))]
    fn denies(self, level: u8, request: Request) -> bool
        requires { level ≤ 2 }
        ensures { result ≡ denies request level self.0 }
    {
        self.is_misaligned_superpage(level)
            || self.lacks_permission(request)
            || self.is_outside_mode(request)
            || self.is_not_accessed()
            || self.is_not_dirty(request)
    }

    /// What the entry means to an access at this level. `level` is 0, 1 or 2.
    #[tactic(auto, unfolding(crate::specs::Walking::meaning_of))]
    pub fn meaning(self, level: u8, request: Request) -> EntryMeaning
        requires { level ≤ 2 }
        ensures value { result ≡ meaning_of request level self.0 }
        ensures table { HasTableAddress result }
    {
        if self.is_malformed() {
            EntryMeaning::PageFault
        } else if self.is_pointer() {
            if self.has_leaf_bits() {
                EntryMeaning::PageFault
            } else {
                EntryMeaning::NextTable(self.page_number() * PAGE_BYTES)
            }
        } else if self.denies(level, request) {
            EntryMeaning::PageFault
        } else {
            EntryMeaning::Translated(self.leaf_address(level, request.va))
        }
    }

    /// The address that a leaf of this level gives `va`: the low 12 + 9 * level bits are those of `va`.
    fn leaf_address(self, level: u8, va: u64) -> u64
        requires { level ≤ 2 }
        ensures { result ≡ leaf_address level va self.0 }
    {
        (self.page_number() * PAGE_BYTES + va % (1 << (12 + 9 * level as u32))) % (1 << 56)
    }
}
