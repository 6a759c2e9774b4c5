//! Bytes cut into lines, and lines into words.

ghost use Rattle.std.specs.Prelude.{◌≡◌, ◌≤◌, ◌<◌, ◌+◌, [], ◌∷◌, length, get_or, take, drop, IfSome, MatchOption};
ghost use Rattle.std.specs.List.{position_or_len};
ghost use Rattle.fault_script.specs.Words.{parts, is_line_feed, is_blank, words_of, without_return};

// Where a line ends.
fn line_len(text: &[u8]) -> usize
    ensures { result ≡ position_or_len is_line_feed text.now }
{
    text.iter()
        .position(|byte| *byte == b'\n')
        .unwrap_or(text.len())
}

// Where a word ends.
fn word_len(line: &[u8]) -> usize
    ensures { result ≡ position_or_len is_blank line.now }
{
    line.iter()
        .position(|byte| *byte == b' ' || *byte == b'\t')
        .unwrap_or(line.len())
}

// The first part of this length, and what stands behind its separator.
fn cut(bytes: &[u8], len: usize) -> (&[u8], &[u8])
    requires { len ≤ length bytes.now }
    ensures first { result.0.now ≡ take len bytes.now }
    ensures rest { result.1.now ≡ drop (len + 1) bytes.now }
{
    let (first, rest) = bytes.split_at(len);
    match rest {
        [_, behind @ ..] => (first, behind),
        [] => (first, rest),
    }
}

/// The first line, and the text behind it.
#[tactic(auto, using(crate::proofs::WordLemmas::parts_cut, crate::proofs::WordLemmas::within))]
pub fn cut_line(text: &[u8]) -> (&[u8], &[u8])
    requires { 0 < length text.now }
    ensures lines { parts is_line_feed text.now ≡ result.0.now ∷ parts is_line_feed result.1.now }
    ensures shorter { length result.1.now < length text.now }
{
    cut(text, line_len(text))
}

// What stands before the first blank, and behind it.
#[tactic(auto, using(crate::proofs::WordLemmas::parts_cut, crate::proofs::WordLemmas::within))]
fn cut_word(line: &[u8]) -> (&[u8], &[u8])
    requires { 0 < length line.now }
    ensures parts { parts is_blank line.now ≡ result.0.now ∷ parts is_blank result.1.now }
    ensures shorter { length result.1.now < length line.now }
{
    cut(line, word_len(line))
}

/// The first word, if there is one, and what stands behind it.
pub(crate) fn next_word(line: &[u8]) -> Option<(&[u8], &[u8])>
    ensures words { MatchOption result (words_of line.now ≡ []) (λ r. words_of line.now ≡ r.0.now ∷ words_of r.1.now) }
    ensures shorter { IfSome result (λ r. length r.1.now < length line.now) }
{
    let mut rest = line;
    while !rest.is_empty() {
        let (word, behind) = cut_word(rest);
        if !word.is_empty() {
            return Some((word, behind));
        }
        rest = behind;
    }
    None
}

/// The word with this number, or nothing.
pub fn line_word(line: &[u8], number: usize) -> &[u8]
    ensures { result.now ≡ get_or (words_of line.now) number [] }
{
    let mut rest = line;
    for _passed in 0..number {
        match next_word(rest) {
            Some((_, behind)) => rest = behind,
            None => return &[],
        }
    }
    match next_word(rest) {
        Some((word, _)) => word,
        None => &[],
    }
}

/// How many words a line has.
pub fn count_words(line: &[u8]) -> usize
    ensures { result ≡ length (words_of line.now) }
{
    let mut count = 0usize;
    let mut rest = line;
    while let Some((_, behind)) = next_word(rest) {
        rest = behind;
        count += 1;
    }
    count
}

/// A line without a carriage return at its end.
pub fn trim_return(line: &[u8]) -> &[u8]
    ensures { result.now ≡ without_return line.now }
{
    match line {
        [body @ .., b'\r'] => body,
        _ => line,
    }
}
