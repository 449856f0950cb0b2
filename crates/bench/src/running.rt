//! Runs. The order of the questions that are put to the model is the order of `carry_out`: the constant
//! starts, reading by reading; then for each configuration the terms without inputs, before it is judged,
//! and, where a step follows, the others after it; in both passes each symbol term once, in term order.
ghost use Rattle.std.specs.Prelude.{◌≡◌, ℕ, ◌+◌, ◌*◌, ◌≤◌, length, take, drop, MatchResult};
ghost use Rattle.sheet.specs.Runs.{FirstBreak};
ghost use Rattle.sheet.specs.View.{sheet_of};
ghost use Rattle.bench.specs.Outcome.{Ran, Accepted, Refused};
ghost use Rattle.bench.specs.Values.{Kept};
ghost use Rattle.fault.specs.declared.Fault.{Fault};

use crate::configuration::Configuration;
use crate::current::Current;
use fault::{BenchFault, Fault};
use plant::Model;
use sheet::Sheet;

const MOST_STEPS: u32 = 10_000;

const STARTS: usize = 8;

fn accept(sheet: &Sheet, starts: &[u32], n: u32, inputs: &[u32]) -> Result<(), BenchFault>
    ensures { MatchResult result (λ _. Accepted (sheet_of sheet.now) starts.now inputs.now n) (λ f. Refused (sheet_of sheet.now) starts.now inputs.now n (Fault.Bench f)) }
{
    if n > MOST_STEPS {
        return Err(BenchFault::TooManySteps);
    }
    if inputs.len() != n as usize * sheet.parts.inputs as usize {
        return Err(BenchFault::InputsLength);
    }
    if starts.len() != STARTS {
        return Err(BenchFault::StartsLength);
    }
    Ok(())
}

// The inputs of one step.
fn inputs_of(inputs: &[u32], each: u8, i: u32) -> &[u32]
    requires { i * each + each ≤ length inputs.now }
    ensures { result.now ≡ take each (drop (i * each) inputs.now) }
{
    let from = i as usize * each as usize;
    &inputs[from..from + each as usize]
}

// The run itself: its answer, and the last configuration that it reaches. Starts, steps and inputs stay apart, as
// callers have them: a struct would be made only to be taken apart.
fn carry_out<M: Model>(
    sheet: &Sheet,
    model: &mut M,
    starts: &[u32],
    n: u32,
    inputs: &[u32],
) -> (Option<u32>, Configuration)
    requires { length inputs.now ≡ n * (sheet_of sheet.now).inputs }
    ensures ran { Ran (M.meaning model.old) (sheet_of sheet.now) starts.now inputs.now n result.0 result.1 }
    ensures kept { Kept M.meaning M.lenders model.old model.new }
{
    let mut current = Current::begin(sheet, model, starts);
    // By number, since a sheet may have no inputs, and then there are no parts of them to go over.
    for i in 0..n {
        if !current.judge(sheet, model) {
            return (Some(i), current.place);
        }
        let given = inputs_of(inputs, sheet.parts.inputs, i);
        current.advance(sheet, model, given);
    }
    if current.judge(sheet, model) {
        (None, current.place)
    } else {
        (Some(n), current.place)
    }
}

/// Runs the sheet on the model for n steps, from the start values and with the inputs, step after step, and
/// answers the first of configurations 0 to n whose invariant is false, or none. A break ends the run. The
/// last configuration reached is left in the place. A refused run writes nothing there, and asks nothing.
pub fn run_to<M: Model>(
    sheet: &Sheet,
    model: &mut M,
    starts: &[u32],
    n: u32,
    inputs: &[u32],
    place: &mut Configuration,
) -> Result<Option<u32>, Fault>
    ensures answer { MatchResult result (λ a. Accepted (sheet_of sheet.now) starts.now inputs.now n × Ran (M.meaning model.old) (sheet_of sheet.now) starts.now inputs.now n a place.new) (λ f. Refused (sheet_of sheet.now) starts.now inputs.now n f × (place.new ≡ place.old) × (model.new ≡ model.old)) }
    ensures kept { M.meaning model.new ≡ M.meaning model.old }
    ensures lent { M.lenders model.new ≡ M.lenders model.old }
{
    accept(sheet, starts, n, inputs)?;
    let (answer, last) = carry_out(sheet, model, starts, n, inputs);
    *place = last;
    Ok(answer)
}

/// The same without a place for the last configuration.
pub fn run<M: Model>(
    sheet: &Sheet,
    model: &mut M,
    starts: &[u32],
    n: u32,
    inputs: &[u32],
) -> Result<Option<u32>, Fault>
    ensures answer { MatchResult result (λ a. Accepted (sheet_of sheet.now) starts.now inputs.now n × FirstBreak (M.meaning model.old) (sheet_of sheet.now) starts.now inputs.now n a) (λ f. Refused (sheet_of sheet.now) starts.now inputs.now n f × (model.new ≡ model.old)) }
    ensures kept { M.meaning model.new ≡ M.meaning model.old }
    ensures lent { M.lenders model.new ≡ M.lenders model.old }
{
    let mut place = Configuration::BLANK;
    run_to(sheet, model, starts, n, inputs, &mut place)
}
