//! The conditions of a branch and the candidate, once the memory is sound and the inputs have their names.
ghost use Rattle.std.specs.Prelude.{◌≡◌, ℕ, ◌<◌, ◌≤◌, length, slice_index};
ghost use Rattle.sheet.specs.Runs.{numbered};
ghost use Rattle.sheet.specs.View.{sheet_of};
ghost use Rattle.forms.specs.Candidate.{branch_answers, condition_of, candidate_with};
ghost use Rattle.forms.specs.Counted.{sides_of, terms_in};
ghost use Rattle.rows.specs.Records.{row_in, Sound};
ghost use Rattle.candidates.specs.Outcome.{Lists, StandsFor};
ghost use Rattle.candidates.specs.Working.{Walks, Lent, Added, Joined};

use crate::answers::answers_of;
use crate::asking::append;
use crate::conditions::Conditions;
use crate::instantiating::{Given, MOST_SHEET_TERMS, Memory};
use fault::TableFault;
use rows::{RowRecord, bits_of};
use sheet::{Equation, Reading, Sheet};
use terms::{Condition, Count, TermRecord};

// One field's length, named for what its contract says.
pub(crate) fn questions_of(sheet: &Sheet) -> usize
    ensures number { result ≡ length (sheet_of sheet.now).questions }
    ensures few { result ≤ 6 }
{
    sheet.parts.questions.len()
}

fn conditions_of(
    sheet: &Sheet,
    given: Given<'_>,
    memory: &mut Memory<'_>,
    own: &[Condition],
    answers: &[bool],
) -> Result<Conditions, TableFault>
    requires { length own.now ≤ 16 }
    ensures lent { Lent memory.old memory.new }
    ensures conditions { Walks given.entry memory.old (λ v values. sides_of (numbered (condition_of values answers.now) 0 (sheet_of sheet.now).questions)) memory.new (λ rs n v values. Joined rs n (numbered (condition_of values answers.now) 0 (sheet_of sheet.now).questions) own.now) result }
{
    let questions: &[Equation] = &sheet.parts.questions;
    let list = given.ask(memory, questions, answers)?;
    Ok(append(list, questions.len(), own))
}

// The lent memory comes in parts, as in the calls that lend it: each says of its own part what becomes of it.
/// The conditions of the row's candidate on the branch.
pub(crate) fn build_conditions<'a>(
    sheet: &'a Sheet,
    bank: &mut [TermRecord],
    count: &mut Count,
    row: &'a RowRecord,
    names: &'a [u8],
    branch: u8,
) -> Result<Conditions, TableFault>
    requires sound { Sound (sheet_of sheet.now) bank.old count.old.terms 16 row.now }
    requires names { (k : ℕ) → slice_index names.now k < 32 }
    ensures { Added bank.old count.old.terms (sides_of (candidate_with (sheet_of sheet.now) (row_in (sheet_of sheet.now) bank.old row.now) names.now (branch_answers (length (sheet_of sheet.now).questions) branch)).conditions) bank.new count.new.terms (Lists bank.new count.new.terms (candidate_with (sheet_of sheet.now) (row_in (sheet_of sheet.now) bank.old row.now) names.now (branch_answers (length (sheet_of sheet.now).questions) branch)).conditions) result }
{
    let asked = questions_of(sheet);
    let answers = &answers_of(branch)[..asked];
    let given = Given::over(sheet, &row.vector, names);
    let mut memory = Memory {
        bank,
        count,
        known: [None; MOST_SHEET_TERMS],
    };
    let own = &row.conditions[..row.used as usize];
    conditions_of(sheet, given, &mut memory, own, answers)
}

/// The row's candidate on the branch.
// Begins as `build_conditions` and does not call it: the vector is built in the memory that the conditions leave, where
// the terms that they asked for are known.
pub(crate) fn build<'a>(
    sheet: &'a Sheet,
    bank: &mut [TermRecord],
    count: &mut Count,
    row: &'a RowRecord,
    names: &'a [u8],
    branch: u8,
) -> Result<RowRecord, TableFault>
    requires sound { Sound (sheet_of sheet.now) bank.old count.old.terms 16 row.now }
    requires names { (k : ℕ) → slice_index names.now k < 32 }
    ensures { Added bank.old count.old.terms (terms_in (candidate_with (sheet_of sheet.now) (row_in (sheet_of sheet.now) bank.old row.now) names.now (branch_answers (length (sheet_of sheet.now).questions) branch))) bank.new count.new.terms (StandsFor (sheet_of sheet.now) bank.new count.new.terms 22 (candidate_with (sheet_of sheet.now) (row_in (sheet_of sheet.now) bank.old row.now) names.now (branch_answers (length (sheet_of sheet.now).questions) branch))) result }
{
    let asked = questions_of(sheet);
    let answers = &answers_of(branch)[..asked];
    let given = Given::over(sheet, &row.vector, names);
    let mut memory = Memory {
        bank,
        count,
        known: [None; MOST_SHEET_TERMS],
    };
    let own = &row.conditions[..row.used as usize];
    let conditions = conditions_of(sheet, given, &mut memory, own, answers)?;
    let bits = &row.bits[..bits_of(sheet)];
    let resolved = sheet.resolve(bits, answers);
    let readings: &[Reading] = &sheet.parts.readings;
    let vector = given.next_vector(&mut memory, readings, &resolved.chosen)?;
    let bits = sheet.next_bits(bits, &resolved.truths);
    let Conditions { list, used } = conditions;
    Ok(RowRecord {
        bits,
        vector,
        conditions: list,
        used,
    })
}
