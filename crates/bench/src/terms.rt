//! The values of the terms of a sheet in one configuration.
ghost use Rattle.std.specs.Prelude.{◌≡◌, true, false};
ghost use Rattle.sheet.specs.Truth.{arg_values, term_value, term_values};
ghost use Rattle.sheet.specs.View.{sheet_of};
ghost use Rattle.bench.specs.Values.{Known, Kept};

use crate::places::value_at;
use plant::Model;
use sheet::{Args, Sheet, Term};

// Each call that may ask the model says that its meaning stays, here and in all of the crate, since the model is the
// caller's. It comes beside the sheet: a struct of both would have to say in each call that the same model is lent.
fn value_of_symbol<M: Model>(model: &mut M, symbol: u8, args: Args, earlier: &[u32]) -> u32
    ensures answer { result ≡ M.meaning model.old symbol (arg_values earlier.now args) }
    ensures kept { Kept M.meaning M.lenders model.old model.new }
{
    let at = |n: u8| value_at(earlier, n);
    match args {
        Args::Zero => model.apply(symbol, &[]),
        Args::One(a) => model.apply(symbol, &[at(a)]),
        Args::Two(a, b) => model.apply(symbol, &[at(a), at(b)]),
        Args::Three(a, b, c) => model.apply(symbol, &[at(a), at(b), at(c)]),
    }
}

fn value_of_term<M: Model>(
    model: &mut M,
    term: Term,
    readings: &[u32],
    inputs: &[u32],
    earlier: &[u32],
) -> u32
    ensures answer { result ≡ term_value (M.meaning model.old) readings.now inputs.now earlier.now term }
    ensures kept { Kept M.meaning M.lenders model.old model.new }
{
    match term {
        Term::Reading(r) => value_at(readings, r),
        Term::Input(i) => value_at(inputs, i),
        Term::Apply(symbol, args) => value_of_symbol(model, symbol, args, earlier),
    }
}

/// Works out the terms without inputs, or in the late pass the others, in the order of their numbers. A
/// symbol term is asked of the model once.
pub(crate) fn evaluate<M: Model>(
    sheet: &Sheet,
    model: &mut M,
    // A value that the terms' own are compared with, which no closure says plainer.
    late: bool,
    readings: &[u32],
    inputs: &[u32],
    values: &mut [u32],
)
    requires early { late ≡ true → Known false (sheet_of sheet.now).terms (term_values (M.meaning model.old) readings.now inputs.now (sheet_of sheet.now).terms) values.old }
    ensures known { Known late (sheet_of sheet.now).terms (term_values (M.meaning model.old) readings.now inputs.now (sheet_of sheet.now).terms) values.new }
    ensures kept { Kept M.meaning M.lenders model.old model.new }
{
    let terms = sheet.parts.terms.as_slice();
    // By number, since a term is worked out from the values before its own.
    for k in 0..values.len() {
        match terms.get(k) {
            None => values[k] = 0,
            Some(entry) => {
                if entry.info.has_input == late {
                    values[k] = value_of_term(model, entry.term, readings, inputs, &values[..k]);
                }
            }
        }
    }
}
