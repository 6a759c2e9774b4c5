//! What words gave.

ghost use Rattle.std.specs.Prelude.{◌≡◌, true, option_map};
ghost use Rattle.clap.specs.Matches.{found_of};
ghost use Rattle.clap.specs.Walk.{rows_of};
ghost use Rattle.clap_words.specs.GivenRows.{is_from_words, given_in, are_given};
ghost use Rattle.clap_words.specs.Numbers.{number_of_kind, number_within};
ghost use Rattle.clap_words.specs.Reading.{has, value_of};
ghost use Rattle.clap_words.specs.Reading as reading;

use crate::table::{Kind, Limit, OptionRow};
use clap::ArgMatches;
use clap::parser::ValueSource;
use ras_numbers::number;
use std::marker::Model;

/// The options and plain words that were given, each by its name with its value.
#[derive(Drop)]
pub struct Given<'a> {
    matches: ArgMatches<'a>,
}

impl<'a> Model for Given<'a> {
    ghost Value = { reading.Given };

    ghost view = { λ g. given_in (rows_of (found_of g.matches)) };

    ghost invariant = { λ g. are_given (rows_of (found_of g.matches)) ≡ true };
}

// Whether the words gave what has this source.
fn is_from_words(source: Option<ValueSource>) -> bool
    ensures { result ≡ is_from_words source }
{
    match source {
        Some(ValueSource::CommandLine) => true,
        Some(ValueSource::DefaultValue) => false,
        None => false,
    }
}

// The number that a text is, if it is one within its limits; the default where there is no text.
fn number_within(limit: Limit, text: Option<&str>) -> Option<u64>
    ensures { result ≡ number_within limit (option_map (λ s. s.now) text.entry) }
{
    let Some(text) = text else {
        return Some(limit.default);
    };
    let value = number(text.as_bytes())?;
    if limit.least <= value && value <= limit.most {
        Some(value)
    } else {
        None
    }
}

impl<'a> Given<'a> {
    /// What is given by the matches of a parse, each of which has its rows before those of defaults.
    pub(crate) fn of(matches: ArgMatches<'a>) -> Given<'a>
        requires { are_given (rows_of (found_of matches)) ≡ true }
        ensures { result ≡ given_in (rows_of (found_of matches.entry)) }
    {
        Given { matches }
    }

    /// Whether an option or a plain word of this name was given.
    pub fn has(&self, name: &str) -> bool
        ensures { result ≡ has name.now self.now }
    {
        is_from_words(self.matches.value_source(name))
    }

    /// The value of the option or plain word of this name, where it was given: `true` of an option
    /// without a value.
    pub fn value_of(&self, name: &str) -> Option<&'a str>
        ensures { option_map (λ s. s.now) result ≡ value_of name.now self.now }
    {
        if self.has(name) {
            self.matches.get_str(name)
        } else {
            None
        }
    }

    /// The number that an option gives, if it is one within its limits; the default where the option
    /// wasn't given. None of a row of another kind.
    pub fn number(&self, row: &OptionRow) -> Option<u64>
        ensures number { result ≡ number_of_kind row.now.kind (value_of row.now.name.now self.now) }
    {
        match row.kind {
            Kind::Number(limit) => number_within(limit, self.value_of(row.name)),
            Kind::Flag => None,
            Kind::Text => None,
        }
    }
}
