//! What is written is read back.

ghost use Rattle.std.specs.Prelude.{◌≡◌, ℕ, ◌<◌, ◌^◌, List, Ok};
ghost use Rattle.fault_script.specs.Fits.{AreReadable, IsScriptFor};
ghost use Rattle.fault_script.specs.Script.{lines_in};
ghost use Rattle.fault_script.specs.Writing.{script_text};
ghost use Rattle.fault_script.specs.ReadBack.{IsReadAs};
ghost use Rattle.fault_script.specs.declared.lines.ScriptLine.{ScriptLine};

/// The canonical text of at most 65,536 lines that fit a RAM is read, for that RAM, as these lines, in
/// whatever order their steps stand.
pub fn written_lines_read_back()
    ensures { (ram_words : ℕ) (lines : List ScriptLine) → ram_words < 2 ^ 32
        → AreReadable ram_words lines → lines_in ram_words (script_text lines) ≡ Ok lines }
{}

/// The canonical text of a script for a RAM is read, for that RAM, as an equal script.
pub fn written_reads_back()
    ensures { (ram_words : ℕ) (lines : List ScriptLine) → ram_words < 2 ^ 32 → IsScriptFor ram_words lines → IsReadAs ram_words (script_text lines) lines }
{}
