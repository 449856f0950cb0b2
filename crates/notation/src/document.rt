//! Whole texts: every line a condition, and the answer on them.
ghost use Rattle.std.specs.Prelude.{◌≡◌, IfOk};
ghost use Rattle.closure.specs.Labels.{literals};
ghost use Rattle.notation.specs.Written.{document, Between, Answers};

use super::Unread;
use super::reading::Reader;
use closure::decide;
use std::alloc::Global;
use terms::{Condition, MOST_TERMS};

/// Where a text could not be read on, its lines counted from 1, and why.
#[derive(Clone, Copy, Debug, PartialEq, Eq)]
pub struct Stopped {
    pub line: usize,
    pub why: Unread,
}

/// Reads a text of conditions, one to a line.
fn read(heap: Global, text: &[u8], reader: &mut Reader) -> Result<Vec<Condition>, Stopped>
    ensures { IfOk result (λ v. Between v.items reader.new.count.terms × (text.now ≡ document (literals reader.new.bank v.items))) }
{
    let mut conditions = Vec::new(heap);
    let mut rest = text;
    // Not by split lines: a condition says itself where its line ends.
    while !rest.is_empty() {
        let line = conditions.len() + 1;
        let (read, more) = reader.condition(rest).map_err(|why| Stopped { line, why })?;
        conditions.push(read).map_err(|_| Stopped {
            line,
            why: Unread::Memory,
        })?;
        rest = more;
    }
    Ok(conditions)
}

/// What is found of a text of conditions.
// No `Result`: that there are too many terms is found as well, and each of the four is printed as an answer.
#[derive(Clone, Copy, Debug, PartialEq, Eq)]
pub enum Answer {
    /// No interpretation meets the conditions.
    Impossible { joins: u16 },
    /// Some interpretation meets them.
    Possible,
    /// They have more than 512 different terms.
    Full,
    /// A line cannot be read.
    Unreadable(Stopped),
}

/// Reads a text of conditions and decides them.
pub fn decide_text(heap: Global, text: &[u8]) -> Answer
    ensures { Answers text.now result }
{
    let mut reader = Reader::new();
    match read(heap, text, &mut reader) {
        Ok(conditions) => verdict(&reader, &conditions),
        Err(
            Stopped {
                why: Unread::TooManyTerms,
                ..
            },
        ) => Answer::Full,
        Err(stopped) => Answer::Unreadable(stopped),
    }
}

fn verdict(reader: &Reader, conditions: &[Condition]) -> Answer
    requires { Between conditions.now reader.now.count.terms }
    ensures { Answers (document (literals reader.now.bank conditions.now)) result }
{
    let mut labels = [0; MOST_TERMS];
    match decide(&reader.bank, reader.count, conditions, &mut labels) {
        Ok(found) if found.impossible => Answer::Impossible { joins: found.joins },
        Ok(_) => Answer::Possible,
        Err(_) => Answer::Full,
    }
}
