//! One configuration: its start, its judgement and the step from it.
ghost use Rattle.std.specs.Prelude.{◌≡◌, false, []};
ghost use Rattle.sheet.specs.Runs.{Configuration as State, start, step, invariant_holds};
ghost use Rattle.sheet.specs.Truth.{term_values};
ghost use Rattle.sheet.specs.View.{sheet_of};
ghost use Rattle.bench.specs.Outcome.{Holds};
ghost use Rattle.bench.specs.Values.{Known, Kept};

use crate::configuration::Configuration;
use crate::equations::answer;
use crate::readings::{next_readings, start_readings};
use crate::terms::evaluate;
use plant::Model;
use sheet::Sheet;

/// The configuration that a run has reached, and the values of the sheet's terms in it, in memory of fixed size, since a
/// run allocates nothing.
#[derive(Drop)]
pub(crate) struct Current {
    pub(crate) place: Configuration,
    values: [u32; 64],
}

impl Current {
    /// The sheet's start.
    pub(crate) fn begin<M: Model>(sheet: &Sheet, model: &mut M, starts: &[u32]) -> Current
        ensures place { Holds result.place (start (M.meaning model.old) (sheet_of sheet.now) starts.now) }
        ensures kept { Kept M.meaning M.lenders model.old model.new }
    {
        let bits = sheet.start_bits();
        let readings = start_readings(sheet, model, starts);
        Current {
            place: Configuration { bits, readings },
            values: [0; 64],
        }
    }

    /// Whether the invariant holds in the configuration. The terms without inputs are worked out for it.
    pub(crate) fn judge<M: Model>(&mut self, sheet: &Sheet, model: &mut M) -> bool
        ensures place { self.new.place ≡ self.old.place }
        ensures known { Known false (sheet_of sheet.now).terms (term_values (M.meaning model.old) self.old.place.readings [] (sheet_of sheet.now).terms) self.new.values }
        ensures answer { (c : State) → Holds self.old.place c → result ≡ invariant_holds (M.meaning model.old) (sheet_of sheet.now) c }
        ensures kept { Kept M.meaning M.lenders model.old model.new }
    {
        evaluate(
            sheet,
            model,
            false,
            &self.place.readings,
            &[],
            &mut self.values,
        );
        let claims: [bool; 4] = answer(sheet.parts.claims.as_slice(), &self.values);
        sheet.truth(sheet.invariant, &self.place.bits, &[], &claims)
    }

    /// Takes the step from the configuration, whose terms without inputs are known.
    pub(crate) fn advance<M: Model>(&mut self, sheet: &Sheet, model: &mut M, inputs: &[u32])
        requires { Known false (sheet_of sheet.now).terms (term_values (M.meaning model.old) self.old.place.readings [] (sheet_of sheet.now).terms) self.old.values }
        ensures place { (c : State) → Holds self.old.place c → Holds self.new.place (step (M.meaning model.old) (sheet_of sheet.now) c inputs.now) }
        ensures kept { Kept M.meaning M.lenders model.old model.new }
    {
        evaluate(
            sheet,
            model,
            true,
            &self.place.readings,
            inputs,
            &mut self.values,
        );
        let values = &self.values;
        let questions: [bool; 6] = answer(sheet.parts.questions.as_slice(), values);
        let branch = sheet.resolve(&self.place.bits, &questions);
        let bits = sheet.next_bits(&self.place.bits, &branch.truths);
        let readings = next_readings(sheet, &self.place.readings, &branch.chosen, values);
        self.place = Configuration { bits, readings };
    }
}
