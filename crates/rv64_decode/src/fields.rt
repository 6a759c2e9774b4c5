//! A word as its base fields (unprivileged manual, "Base Instruction Formats").

ghost use Rattle.std.specs.Prelude.{◌≡◌};
ghost use Rattle.rv64_decode.specs.Fields.{fields_of, word_of_fields, AreFields};

/// The six fields of a word, the lowest first.
#[derive(Clone, Copy)]
pub struct Fields {
    pub opcode: u8,
    pub rd: u8,
    pub funct3: u8,
    pub rs1: u8,
    pub rs2: u8,
    pub funct7: u8,
}

impl Fields {
    /// The fields of a word.
    #[tactic(auto, unfolding(crate::specs::Fields::fields_of))]
    pub fn of(word: u32) -> Fields
        ensures { result ≡ fields_of word }
    {
        Fields {
            opcode: (word & 0x7F) as u8,
            rd: (word >> 7 & 0x1F) as u8,
            funct3: (word >> 12 & 7) as u8,
            rs1: (word >> 15 & 0x1F) as u8,
            rs2: (word >> 20 & 0x1F) as u8,
            funct7: (word >> 25) as u8,
        }
    }

    /// The word that has these fields. Each fits its bits.
    #[tactic(auto, unfolding(crate::specs::Fields::word_of_fields))]
    pub fn word(self) -> u32
        requires { AreFields self }
        ensures { result ≡ word_of_fields self }
    {
        self.opcode as u32
            + ((self.rd as u32) << 7)
            + ((self.funct3 as u32) << 12)
            + ((self.rs1 as u32) << 15)
            + ((self.rs2 as u32) << 20)
            + ((self.funct7 as u32) << 25)
    }
}
