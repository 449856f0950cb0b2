//! What is printed of a run: the run file's own words, the answer and the last configuration.
#![tactic(auto)]

ghost use Rattle.std.specs.Prelude.{◌≡◌, ℕ, ◌≤◌, Bool, List, ◌++◌, map, length, take, IfOk, Ok, string_bytes, codes, OnOk};
ghost use Rattle.bench.specs.Outcome.{Accepted, Ran};
ghost use Rattle.bench_text.specs.Lines.{spaced, bit_number, plant_line, head_of, answer_line, last_line};
ghost use Rattle.bench_text.specs.Report.{fault_line, FailureLine, RunText, PlantText, SheetText, Reported};
ghost use Rattle.run_file.specs.Reading.{plant_of, run_of, run_said};
ghost use Rattle.sheet.specs.Truth.{Meaning};
ghost use Rattle.sheet.specs.View.{sheet_of};

use bench::{Configuration, run_to};
use fault::{Failure, Fault};
use plant::Model;
use plant::affine::Affine;
use plant::listed::Listed;
use reader::{read, smallest};
use run_file::{Plant, RunFile};
use run_file_error::ReadFailure;
use sheet::Sheet;
use std::alloc::{AllocError, Global};

// Each number after a space, as in `sheet_text` over bytes. Shared, it would be a public call of `sheet_text`, with a
// contract and an edit of its own.
fn push_numbers(text: &mut String, numbers: &[u32]) -> Result<(), AllocError>
    ensures { OnOk result (string_bytes text.new ≡ string_bytes text.old ++ spaced numbers.now) }
{
    for number in numbers {
        write!(text, " {number}")?;
    }
    Ok(())
}

// No `Display`, which this crate could give only to a type around the plant, the answer or the failure.
fn plant_line(heap: Global, plant: &Plant) -> Result<String, AllocError>
    ensures { IfOk result (λ t. string_bytes t ≡ plant_line (plant_of plant.now)) }
{
    match plant {
        Plant::Listed { default, entries } => {
            let count = entries.len();
            format!(in heap; "plant listed default {default} entries {count}\n")
        }
        Plant::Affine { modulus, curves } => {
            let count = curves.len();
            format!(in heap; "plant affine modulus {modulus} curves {count}\n")
        }
    }
}

// What the run file says.
fn head(heap: Global, run: &RunFile) -> Result<String, AllocError>
    ensures { IfOk result (λ t. string_bytes t ≡ head_of (run_of run.now)) }
{
    let mut text = plant_line(heap, &run.plant)?;
    text.push_str("start")?;
    push_numbers(&mut text, run.starts.as_slice())?;
    text.push_str("\n")?;
    let steps = run.steps;
    let count = run.inputs.len();
    write!(text, "steps {steps} inputs {count}\n")?;
    Ok(text)
}

fn fault_line(heap: Global, fault: Fault) -> Result<String, AllocError>
    ensures { IfOk result (λ t. string_bytes t ≡ fault_line fault) }
{
    format!(in heap; "{fault}\n")
}

fn answer_line(heap: Global, answer: Option<u32>) -> Result<String, AllocError>
    ensures { IfOk result (λ t. string_bytes t ≡ answer_line answer) }
{
    match answer {
        None => String::from_str(heap, "answer none\n"),
        Some(i) => format!(in heap; "answer break {i}\n"),
    }
}

// The bits are given as numbers.
fn push_last(text: &mut String, i: u32, bits: &[u32], readings: &[u32]) -> Result<(), AllocError>
    ensures { OnOk result ((bs : List Bool) → bits.now ≡ map bit_number bs → string_bytes text.new ≡ string_bytes text.old ++ last_line i bs readings.now) }
{
    write!(text, "last {i} bits")?;
    push_numbers(text, bits)?;
    text.push_str(" readings")?;
    push_numbers(text, readings)?;
    text.push_str("\n")
}

// The answer of a run of n steps, and as much of the last configuration as the sheet has.
fn ending(
    heap: Global,
    sheet: &Sheet,
    n: u32,
    answer: Option<u32>,
    last: &Configuration,
) -> Result<String, AllocError>
    ensures { IfOk result (λ t. (m : Meaning) (starts inputs : List ℕ) → Accepted (sheet_of sheet.now) starts inputs n → Ran m (sheet_of sheet.now) starts inputs n answer last.now → RunText m (sheet_of sheet.now) starts inputs n (string_bytes t)) }
{
    let bits = last.bits.map(u32::from);
    let bits = &bits[..sheet.parts.bits.len()];
    let readings = &last.readings[..sheet.parts.readings.len()];
    let mut text = answer_line(heap, answer)?;
    push_last(&mut text, answer.unwrap_or(n), bits, readings)?;
    Ok(text)
}

fn run_text<M: Model>(
    heap: Global,
    sheet: &Sheet,
    model: &mut M,
    run: &RunFile,
) -> Result<String, AllocError>
    ensures { IfOk result (λ t. RunText (M.meaning model.old) (sheet_of sheet.now) (run_of run.now).starts (run_of run.now).inputs (run_of run.now).steps (string_bytes t)) }
{
    let starts = run.starts.as_slice();
    let inputs = run.inputs.as_slice();
    let mut last = Configuration::BLANK;
    // Here and below, a refusal is printed, so nothing is passed on.
    match run_to(sheet, model, starts, run.steps, inputs, &mut last) {
        Ok(answer) => ending(heap, sheet, run.steps, answer, &last),
        Err(fault) => fault_line(heap, fault),
    }
}

fn plant_text(heap: Global, sheet: &Sheet, run: &RunFile) -> Result<String, AllocError>
    ensures { IfOk result (λ t. PlantText (sheet_of sheet.now) (run_of run.now).plant (run_of run.now).starts (run_of run.now).inputs (run_of run.now).steps (string_bytes t)) }
{
    match &run.plant {
        Plant::Listed { default, entries } => {
            let mut model = Listed::new(*default, entries.as_slice());
            run_text(heap, sheet, &mut model, run)
        }
        Plant::Affine { modulus, curves } => match Affine::new(*modulus, curves.as_slice()) {
            Ok(mut model) => run_text(heap, sheet, &mut model, run),
            Err(fault) => fault_line(heap, fault),
        },
    }
}

fn failure_line(heap: Global, failure: Failure) -> Result<String, AllocError>
    ensures { IfOk result (λ t. FailureLine failure (string_bytes t)) }
{
    match failure {
        Failure::Fault(fault) => fault_line(heap, fault),
        // The failure carries no error of the allocator that could be passed on.
        Failure::Memory => Err(AllocError),
    }
}

fn sheet_text(heap: Global, bytes: &[u8], run: &RunFile) -> Result<String, AllocError>
    ensures { IfOk result (λ t. SheetText bytes.now (run_of run.now) (string_bytes t)) }
{
    let mut sheet = smallest(heap)?;
    match read(bytes, heap, &mut sheet) {
        Ok(()) => plant_text(heap, &sheet, run),
        Err(failure) => failure_line(heap, failure),
    }
}

fn whole_text(heap: Global, bytes: &[u8], run: &RunFile) -> Result<String, AllocError>
    ensures { IfOk result (λ t. Reported bytes.now (Ok (run_of run.now)) (string_bytes t)) }
{
    let mut text = head(heap, run)?;
    let rest = sheet_text(heap, bytes, run)?;
    text.push_str(rest.as_str())?;
    Ok(text)
}

/// What is printed of the run that the run file asks for, on the sheet in the bytes.
pub fn bench_report(heap: Global, sheet: &[u8], run: &[u8]) -> Result<String, AllocError>
    ensures { IfOk result (λ t. Reported sheet.now (run_said run.now) (string_bytes t)) }
{
    match run_file::read(heap, run) {
        Ok(said) => whole_text(heap, sheet, &said),
        Err(ReadFailure::Line(error)) => format!(in heap; "{error}\n"),
        // The same as in `failure_line`.
        Err(ReadFailure::Memory) => Err(AllocError),
    }
}
