//! What the numbers of a line say after its first word.
ghost use Rattle.std.specs.Prelude.{◌≡◌};
ghost use Rattle.script.specs.Steps.{branch_in, merge_in, keep_in, verdict_in, limit_in, step_of};

use crate::error::Problem;
use crate::keyword::Keyword;
use rules::{Branch, Call};

/// What a line asks for.
#[derive(Clone, Copy, Debug, PartialEq, Eq)]
pub enum Step {
    /// The sheet is opened anew, with this row limit.
    Open(u8),
    Call(Call),
}

// A row and a branch.
fn branch_in(numbers: &[u8]) -> Result<Branch, Problem>
    ensures { result ≡ branch_in numbers.now }
{
    match numbers {
        [row, number] => Ok(Branch {
            row: *row,
            number: *number,
        }),
        [_, _, _, ..] => Err(Problem::TooManyNumbers),
        _ => Err(Problem::TooFewNumbers),
    }
}

// A row and a branch, the target row and the height.
fn merge_in(numbers: &[u8]) -> Result<Call, Problem>
    ensures { result ≡ merge_in numbers.now }
{
    match numbers {
        [row, number, target, height] => Ok(Call::Merge {
            ticket: Branch {
                row: *row,
                number: *number,
            },
            target: *target,
            height: *height,
        }),
        [_, _, _, _, _, ..] => Err(Problem::TooManyNumbers),
        _ => Err(Problem::TooFewNumbers),
    }
}

// A row and a branch, and the height.
fn keep_in(numbers: &[u8]) -> Result<Call, Problem>
    ensures { result ≡ keep_in numbers.now }
{
    match numbers {
        [row, number, height] => Ok(Call::Keep {
            ticket: Branch {
                row: *row,
                number: *number,
            },
            height: *height,
        }),
        [_, _, _, _, ..] => Err(Problem::TooManyNumbers),
        _ => Err(Problem::TooFewNumbers),
    }
}

fn verdict_in(numbers: &[u8]) -> Result<Call, Problem>
    ensures { result ≡ verdict_in numbers.now }
{
    match numbers {
        [] => Ok(Call::Verdict),
        _ => Err(Problem::TooManyNumbers),
    }
}

fn limit_in(numbers: &[u8]) -> Result<u8, Problem>
    ensures { result ≡ limit_in numbers.now }
{
    match numbers {
        [] => Err(Problem::TooFewNumbers),
        [limit] => Ok(*limit),
        _ => Err(Problem::TooManyNumbers),
    }
}

/// What the word asks for with these numbers.
pub(crate) fn step_for(keyword: Keyword, numbers: &[u8]) -> Result<Step, Problem>
    ensures { result ≡ step_of keyword numbers.now }
{
    Ok(match keyword {
        Keyword::Take => Step::Call(Call::Take(branch_in(numbers)?)),
        Keyword::Give => Step::Call(Call::GiveBack(branch_in(numbers)?)),
        Keyword::Strike => Step::Call(Call::Strike(branch_in(numbers)?)),
        Keyword::Merge => Step::Call(merge_in(numbers)?),
        Keyword::Keep => Step::Call(keep_in(numbers)?),
        Keyword::Verdict => Step::Call(verdict_in(numbers)?),
        Keyword::Open => Step::Open(limit_in(numbers)?),
    })
}
