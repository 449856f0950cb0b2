//! The conditions that the questions give with a branch's answers, before the row's own.
ghost use Rattle.std.specs.Prelude.{◌≡◌, ℕ, ◌+◌, ◌<◌, ◌≤◌, [], ◌∷◌, length, slice_index_or};
ghost use Rattle.sheet.specs.Runs.{numbered};
ghost use Rattle.closure.specs.Labels.{no_condition};
ghost use Rattle.forms.specs.Candidate.{sign_of, condition_of};
ghost use Rattle.forms.specs.Counted.{sides_of};
ghost use Rattle.candidates.specs.Working.{Walks, Lent, Stands, Listed, literal_for};

use crate::conditions::Conditions;
use crate::instantiating::{Given, Memory};
use fault::TableFault;
use rows::{MOST_CANDIDATE_CONDITIONS, at_or};
use sheet::Equation;
use terms::{Condition, Sign};

// A function and no `From<bool>` of the sign: that true means equal holds of answers alone.
pub(crate) fn sign_of(answer: bool) -> Sign
    ensures { result ≡ sign_of answer }
{
    if answer { Sign::Equal } else { Sign::Different }
}

impl Given<'_> {
    fn condition_of(
        self,
        memory: &mut Memory<'_>,
        equation: Equation,
        answer: bool,
    ) -> Result<Condition, TableFault>
        ensures lent { Lent memory.old memory.new }
        ensures condition { Walks self.entry memory.old (λ v values. sides_of (literal_for values equation answer ∷ [])) memory.new (λ rs n v values. Stands rs n (literal_for values equation answer)) result }
    {
        let left = self.place_of(memory, equation.left)?;
        let right = self.place_of(memory, equation.right)?;
        let sign = sign_of(answer);
        Ok(Condition { left, right, sign })
    }

    /// The conditions of the questions with their answers.
    pub(crate) fn ask(
        self,
        memory: &mut Memory<'_>,
        questions: &[Equation],
        answers: &[bool],
    ) -> Result<[Condition; 22], TableFault>
        requires { length questions.now ≤ 22 }
        ensures lent { Lent memory.old memory.new }
        ensures conditions { Walks self.entry memory.old (λ v values. sides_of (numbered (condition_of values answers.now) 0 questions.now)) memory.new (λ rs n v values. Listed rs n (numbered (condition_of values answers.now) 0 questions.now) (length questions.now)) result }
    {
        let mut list = [Condition::BLANK; MOST_CANDIDATE_CONDITIONS];
        // By number: of what a loop over `iter_mut().zip(..)` has written nothing can be proved.
        for (i, question) in questions.iter().enumerate() {
            let answer = at_or(answers, i, false);
            list[i] = self.condition_of(memory, *question, answer)?;
        }
        Ok(list)
    }
}

/// The row's own conditions behind the first `asked`.
// On a buffer with its length, since rows are memory of a fixed size.
pub(crate) fn append(mut list: [Condition; 22], asked: usize, own: &[Condition]) -> Conditions
    requires { asked + length own.now ≤ 22 }
    ensures used { result.used ≡ asked + length own.now }
    ensures front { (k : ℕ) → k < asked → slice_index_or result.list k no_condition ≡ slice_index_or list k no_condition }
    ensures back { (k : ℕ) → k < length own.now → slice_index_or result.list (asked + k) no_condition ≡ slice_index_or own.now k no_condition }
{
    let used = asked + own.len();
    list[asked..used].copy_from_slice(own);
    Conditions {
        list,
        used: used as u8,
    }
}
