//! The whole file, line after line.
ghost use Rattle.std.specs.Prelude.{◌≡◌, length, IfOk};
ghost use Rattle.text_words.specs.Words.{lines_of, words_of};
ghost use Rattle.run_file.specs.Grammar.{Grammar};
ghost use Rattle.run_file.specs.Reading.{Tells, so_far, line_says, at_line, following, finished, run_said, run_of};

use crate::RunFile;
use crate::draft::Draft;
use run_file_error::{LineError, Problem, ReadFailure};
use std::alloc::Global;

/// What the lines say as a whole, where nothing is missing.
fn finish(draft: Draft, line: usize) -> Result<RunFile, ReadFailure>
    ensures { Tells run_of result (finished line (so_far draft)) }
{
    let missing = |problem| LineError { line, problem };
    let Draft {
        plant,
        starts,
        steps,
        inputs,
    } = draft;
    Ok(RunFile {
        plant: plant.ok_or(missing(Problem::PlantMissing))?,
        starts: starts.ok_or(missing(Problem::StartMissing))?,
        steps: steps.ok_or(missing(Problem::StepsMissing))?,
        inputs,
    })
}

/// Takes one line, whose number a failure gives.
fn take_line(heap: Global, draft: &mut Draft, text: &[u8], line: usize) -> Result<(), ReadFailure>
    ensures { Tells (λ _. so_far draft.new) result (at_line line (line_says (so_far draft.old) (words_of text.now))) }
{
    draft.line(heap, text).map_err(|halt| halt.at(line))
}

/// Takes every line, and answers how many there are.
fn take_lines(heap: Global, draft: &mut Draft, bytes: &[u8]) -> Result<usize, ReadFailure>
    ensures said { Tells (λ _. so_far draft.new) result (following 1 (so_far draft.old) (lines_of bytes.now)) }
    ensures count { IfOk result (λ n. n ≡ length (lines_of bytes.now)) }
{
    // Counted by hand, since the count is also the answer.
    let mut line = 0;
    for text in bytes.split(|b| *b == b'\n') {
        line += 1;
        take_line(heap, draft, text, line)?;
    }
    Ok(line)
}

fn read_lines(heap: Global, bytes: &[u8]) -> Result<RunFile, ReadFailure>
    ensures { Tells run_of result (run_said bytes.now) }
{
    let mut draft = Draft::new(heap);
    let last = take_lines(heap, &mut draft, bytes)?;
    finish(draft, last)
}

/// Reads a run file: what its lines say, or the first line that has a problem.
pub fn read(heap: Global, bytes: &[u8]) -> Result<RunFile, ReadFailure>
    ensures said { Tells run_of result (run_said bytes.now) }
    ensures grammar { Grammar bytes.now }
{
    read_lines(heap, bytes)
}
