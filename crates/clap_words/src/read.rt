//! Words that are read by a table.

ghost use Rattle.std.specs.Prelude.{◌≡◌, IfOk, None, Some, Err, true};
ghost use Rattle.clap_words.specs.Table.{is_table, table_gives, texts_of};

use crate::build::build_command;
use crate::given::Given;
use crate::table::Table;
use clap::error::ErrorKind;
use std::alloc::Global;

/// Why words gave nothing.
#[derive(Clone, Copy, Debug, PartialEq, Eq)]
pub enum WordsError {
    /// The words are not of the form that the table says.
    Refused,
    /// Want of memory.
    NoMemory,
}

/// Reads words by a table.
///
/// A word that begins with `--` names an option by its whole name. Its value, if it has one, follows
/// the first `=` in the word, or is the next word, which must not begin with `-` unless it is `-`
/// alone. After the word `--` each word is plain. Options and plain words come in any order.
///
/// Refused: an unknown option; another word that begins with `-` and is longer; an option given
/// twice; a missing or an empty value; a value for an option without one; a missing, surplus or empty
/// plain word. Whether a value is a number is asked by [`Given::number`].
pub fn read_given<'a>(
    alloc: Global,
    table: &Table,
    words: &'a [String],
) -> Result<Given<'a>, WordsError>
    requires { is_table table.now ≡ true }
    ensures taken { IfOk result (λ given. table_gives table.now (texts_of words.entry.now) ≡ Some given) }
    ensures refused { result ≡ Err WordsError.Refused
        → table_gives table.now (texts_of words.entry.now) ≡ None }
{
    let Ok(command) = build_command(alloc, table) else {
        return Err(WordsError::NoMemory);
    };
    match command.try_get_matches_from(words) {
        Ok(matches) => Ok(Given::of(matches)),
        Err(error) => Err(match error.kind() {
            ErrorKind::OutOfMemory => WordsError::NoMemory,
            _ => WordsError::Refused,
        }),
    }
}
