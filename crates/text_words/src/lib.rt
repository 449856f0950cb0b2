//! Lines of a text of bytes, the words of a line, and the numbers that words write.
#![tactic(auto)]

ghost use Rattle.std.specs.Prelude.{◌≡◌, ◌+◌, ◌*◌, ◌<◌, ◌≤◌, [], ◌∷◌, ◌++◌, length, map, IfOk, MatchOption};
ghost use Rattle.std.specs.Char.{is_ascii_digit};
ghost use Rattle.std.specs.List.{list_all};
ghost use Rattle.text_words.specs.Words.{blank, lines_of, before_comment, words_in, words_of, FirstWord, BlanksBefore, within, number_of};
ghost use Rattle.text_words.specs.Grammar.{Grammar};

use std::alloc::{AllocError, Global};

/// Why a word writes no number that is asked for.
#[derive(Clone, Copy, Debug, PartialEq, Eq)]
pub enum NotNumber {
    /// It is not written with decimal digits alone.
    NotDecimal,
    /// The number is above the largest.
    TooLarge,
}

/// The lines of a text.
pub fn lines(heap: Global, text: &[u8]) -> Result<Vec<&[u8]>, AllocError>
    ensures { IfOk result (λ lines. map (λ l. l.now) lines.items ≡ lines_of text.now) }
{
    text.split(|b| *b == b'\n').collect(heap)
}

/// A space, a tab or a carriage return.
fn is_blank(b: u8) -> bool
    ensures { result ≡ blank b }
{
    matches!(b, b' ' | b'\t' | b'\r')
}

/// The line up to its comment.
pub fn before_comment(line: &[u8]) -> &[u8]
    ensures { result.now ≡ before_comment line.now }
{
    line.split(|b| *b == b'#').next().unwrap_or(line)
}

/// The first word of a text and all that comes behind it; none where the text has blanks alone.
// Beside `words`, whose list takes much more memory than the text.
pub fn split_word(text: &[u8]) -> Option<(&[u8], &[u8])>
    ensures words { MatchOption result (words_in text.now ≡ []) (λ p. FirstWord text.now p.0.now p.1.now) }
    ensures parts { MatchOption result (Unit {0}) (λ p. BlanksBefore (p.0.now ++ p.1.now) text.now) }
    ensures shorter { MatchOption result (Unit {0}) (λ p. length p.1.now < length text.now) }
{
    let start = text.iter().position(|b| !is_blank(*b))?;
    let (_, said) = text.split_at(start);
    let end = said.iter().position(|b| is_blank(*b)).unwrap_or(said.len());
    Some(said.split_at(end))
}

/// The words of a line: those before its comment.
pub fn words(heap: Global, line: &[u8]) -> Result<Vec<&[u8]>, AllocError>
    ensures { IfOk result (λ words. map (λ w. w.now) words.items ≡ words_of line.now) }
{
    before_comment(line)
        .split(|b| is_blank(*b))
        .filter(|word| !word.is_empty())
        .collect(heap)
}

/// Whether the word has decimal digits alone.
fn is_decimal(word: &[u8]) -> bool
    ensures { result ≡ list_all is_ascii_digit word.now }
{
    word.iter().all(|b| b.is_ascii_digit())
}

/// The value with one digit more.
fn with_digit(value: u32, digit: u8, most: u32) -> Result<u32, NotNumber>
    ensures { result ≡ within most (10 * value + digit) }
{
    let next = 10 * u64::from(value) + u64::from(digit);
    if next > u64::from(most) {
        return Err(NotNumber::TooLarge);
    }
    Ok(next as u32)
}

/// The number that the word writes, which is at most `most`.
// Not `parse`, which takes text and a sign, and finds a number too large before a later byte that is no digit.
pub fn number(word: &[u8], most: u32) -> Result<u32, NotNumber>
    ensures { result ≡ number_of most word.now }
{
    if !is_decimal(word) {
        return Err(NotNumber::NotDecimal);
    }
    let mut value = 0;
    for b in word {
        value = with_digit(value, *b - b'0', most)?;
    }
    Ok(value)
}

/// What lines and numbers are for.
pub fn grammar()
    ensures { Grammar }
{}
