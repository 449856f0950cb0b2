//! The whole script, line after line.
ghost use Rattle.std.specs.Prelude.{◌≡◌, [], map, vec_items};
ghost use Rattle.text_words.specs.Words.{words_of};
ghost use Rattle.script.specs.Grammar.{NamesLine};
ghost use Rattle.script.specs.Reading.{Means, Tells, byte_of, numbers_of, line_says, at_line, following, script_said};

use crate::error::{Halt, Problem, ReadFailure};
use crate::keyword::Keyword;
use crate::step::{Step, step_for};
use std::alloc::Global;
use text_words::{NotNumber, lines, number, words};

/// The number that the word writes, up to 255.
fn byte(word: &[u8]) -> Result<u8, Problem>
    ensures { result ≡ byte_of word.now }
{
    match number(word, 255) {
        Ok(value) => Ok(value as u8),
        Err(NotNumber::NotDecimal) => Err(Problem::NotANumber),
        Err(NotNumber::TooLarge) => Err(Problem::NumberTooLarge),
    }
}

/// The numbers that the words write.
fn numbers(heap: Global, words: &[&[u8]]) -> Result<Vec<u8>, Halt>
    ensures { Means vec_items result (numbers_of (map (λ w. w.now) words.now)) }
{
    let mut found = Vec::new(heap);
    for word in words {
        found.push(byte(word)?)?;
    }
    Ok(found)
}

/// Adds what one line asks for. A line without words asks for nothing.
fn add_line(heap: Global, steps: &mut Vec<Step>, text: &[u8]) -> Result<(), Halt>
    ensures { Means (λ _. vec_items steps.new) result
        (line_says (vec_items steps.old) (words_of text.now)) }
{
    let words = words(heap, text)?;
    let [name, rest @ ..] = words.as_slice() else {
        return Ok(());
    };
    let keyword = Keyword::try_from(*name)?;
    let numbers = numbers(heap, rest)?;
    steps.push(step_for(keyword, &numbers)?)?;
    Ok(())
}

/// The same; a failure gives the line's number.
fn add_line_at(
    heap: Global,
    steps: &mut Vec<Step>,
    line: usize,
    text: &[u8],
) -> Result<(), ReadFailure>
    ensures { Tells (λ _. vec_items steps.new) result
        (at_line line (line_says (vec_items steps.old) (words_of text.now))) }
{
    add_line(heap, steps, text).map_err(|halt| halt.at(line))
}

fn steps_of(heap: Global, lines: &[&[u8]]) -> Result<Vec<Step>, ReadFailure>
    ensures { Tells vec_items result (following 1 [] (map (λ l. l.now) lines.now)) }
{
    let mut steps = Vec::new(heap);
    for (i, text) in lines.iter().enumerate() {
        add_line_at(heap, &mut steps, i + 1, text)?;
    }
    Ok(steps)
}

fn read_lines(heap: Global, text: &[u8]) -> Result<Vec<Step>, ReadFailure>
    ensures { Tells vec_items result (script_said text.now) }
{
    let lines = lines(heap, text)?;
    steps_of(heap, lines.as_slice())
}

/// Reads a script: what its lines ask for, or the first line that has a problem.
pub fn read(heap: Global, text: &[u8]) -> Result<Vec<Step>, ReadFailure>
    ensures said { Tells vec_items result (script_said text.now) }
    ensures line { NamesLine text.now }
{
    read_lines(heap, text)
}
