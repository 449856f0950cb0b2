//! A whole session.
ghost use Rattle.std.specs.Prelude.{◌≡◌, [], ◌++◌, IfOk, string_bytes};
ghost use Rattle.sheet.specs.System.{System};
ghost use Rattle.reader.specs.Law.{ReadAs};
ghost use Rattle.script.specs.Reading.{script_said};
ghost use Rattle.session_text.specs.Session.{SessionText, ScriptText, FailureLine, Printed};

use crate::lines::push_counts;
use crate::working::{push_steps, sheet_in};
use fault::Failure;
use script::{ReadFailure, Step, read};
use std::alloc::{AllocError, Global};

fn steps_text(heap: Global, bytes: &[u8], limit: u8, steps: &[Step]) -> Result<String, AllocError>
    ensures { IfOk result (λ t. (s : System) → ReadAs bytes.now s
        → SessionText s limit steps.now (string_bytes t)) }
{
    let mut text = String::new(heap);
    let counts = push_steps(heap, bytes, limit, steps, &mut text)?;
    push_counts(&mut text, counts)?;
    Ok(text)
}

fn script_text(heap: Global, bytes: &[u8], limit: u8, script: &[u8]) -> Result<String, AllocError>
    ensures { IfOk result (λ t. (s : System) → ReadAs bytes.now s
        → ScriptText s limit (script_said script.now) (string_bytes t)) }
{
    match read(heap, script) {
        Ok(steps) => steps_text(heap, bytes, limit, &steps),
        Err(ReadFailure::Line(error)) => format!(in heap; "{error}\n"),
        // The failure carries no error of the allocator that could be passed on; so below.
        Err(ReadFailure::Memory) => Err(AllocError),
    }
}

fn failure_line(heap: Global, failure: Failure) -> Result<String, AllocError>
    ensures { IfOk result (λ t. FailureLine failure (string_bytes t)) }
{
    match failure {
        Failure::Fault(fault) => format!(in heap; "{fault}\n"),
        Failure::Memory => Err(AllocError),
    }
}

/// What is printed of a session on the sheet in the bytes: a table is opened on it with the row limit, and worked as the
/// script says.
pub fn session(heap: Global, sheet: &[u8], limit: u8, script: &[u8]) -> Result<String, AllocError>
    ensures { IfOk result (λ t. Printed sheet.now limit (script_said script.now) (string_bytes t)) }
{
    match sheet_in(heap, sheet) {
        Ok(_) => script_text(heap, sheet, limit, script),
        Err(failure) => failure_line(heap, failure),
    }
}
