//! Safety of a form, by the cases of the claims: the claims' terms are interned once, and each case with a false
//! invariant is tried with its signs.
ghost use Rattle.std.specs.Prelude.{◌≡◌, ℕ, ◌<◌, ◌≤◌, false, cond, nat_lt, length, slice_index_or};
ghost use Rattle.sheet.specs.View.{sheet_of};
ghost use Rattle.closure.specs.Labels.{no_condition};
ghost use Rattle.forms.specs.Rows.{Row};
ghost use Rattle.forms.specs.Counted.{claim_terms};
ghost use Rattle.rows.specs.Records.{Sound, row_in};
ghost use Rattle.candidates.specs.Working.{Added};
ghost use Rattle.candidates.specs.Cases.{with_answer, Laid, Tried, Unbroken, Searched};
ghost use Rattle.candidates.specs.Judged.{Judged};
ghost use Rattle.candidates.specs.Outcome.{Kept};

use crate::answers::answers_of;
use crate::asking::{append, sign_of};
use crate::conditions::Conditions;
use crate::instantiating::{Given, MOST_SHEET_TERMS, Memory};
use closure::decide;
use fault::TableFault;
use rows::{MOST_CONDITIONS, RowRecord, bits_of, is_sound};
use sheet::{Equation, Sheet};
use std::array;
use terms::{Condition, Count, CountGuard, MOST_TERMS, TermRecord};

// Condition k of the cases, with the sign of answer k where there is one.
fn signed_at(condition: Condition, answers: &[bool], k: usize) -> Condition
    ensures { result ≡ cond (nat_lt k (length answers.now)) (with_answer condition (slice_index_or answers.now k false)) condition }
{
    let sign = answers
        .get(k)
        .map_or(condition.sign, |answer| sign_of(*answer));
    Condition { sign, ..condition }
}

// The conditions, the first of them with the signs of the answers.
fn signed(list: [Condition; 22], answers: &[bool]) -> [Condition; 22]
    requires { length answers.now ≤ 22 }
    ensures front { (k : ℕ) → k < length answers.now → slice_index_or result k no_condition ≡ with_answer (slice_index_or list k no_condition) (slice_index_or answers.now k false) }
    ensures back { (k : ℕ) → length answers.now ≤ k → slice_index_or result k no_condition ≡ slice_index_or list k no_condition }
{
    array::from_fn(|k| signed_at(list[k], answers, k))
}

// One field's length, named for what its contract says.
fn claims_of(sheet: &Sheet) -> usize
    ensures number { result ≡ length (sheet_of sheet.now).claims }
    ensures few { result ≤ 4 }
{
    sheet.parts.claims.len()
}

// The cases of a form's claims: the conditions of the first case, with the form's own, and the form's bits. The bank is
// lent to each call beside it, since what was lent in a struct is not known to be unchanged.
#[derive(Clone, Copy)]
struct Cases<'a> {
    sheet: &'a Sheet,
    bits: &'a [bool],
    conditions: Conditions,
    ghost room: { conditions.used ≤ 22 },
}

impl Cases<'_> {
    // Whether the invariant is false in a case that the conditions allow.
    fn is_breaking(
        &self,
        bank: &[TermRecord],
        count: Count,
        case: u8,
        labels: &mut [u16],
    ) -> Result<bool, TableFault>
        ensures { (form : Row) → Laid (sheet_of self.now.sheet.now) form bank.now count.terms self.now.conditions.list self.now.conditions.used → form.bits ≡ self.now.bits.now → 512 ≤ length labels.old → Tried (sheet_of self.now.sheet.now) form case result }
    {
        let sheet = self.sheet;
        let answers = &answers_of(case)[..claims_of(sheet)];
        if sheet.truth(sheet.invariant, self.bits, &[], answers) {
            return Ok(false);
        }
        let list = signed(self.conditions.list, answers);
        let used = &list[..self.conditions.used as usize];
        let verdict = decide(bank, count, used, labels)?;
        Ok(!verdict.impossible)
    }

    // Whether no case has a false invariant and is allowed by the conditions.
    fn is_unbroken(
        &self,
        bank: &[TermRecord],
        count: Count,
        labels: &mut [u16],
    ) -> Result<bool, TableFault>
        ensures { (form : Row) → Laid (sheet_of self.now.sheet.now) form bank.now count.terms self.now.conditions.list self.now.conditions.used → form.bits ≡ self.now.bits.now → 512 ≤ length labels.old → Searched (sheet_of self.now.sheet.now) form result }
    {
        let cases = 1u8 << claims_of(self.sheet);
        for case in 0..cases {
            if self.is_breaking(bank, count, case, labels)? {
                return Ok(false);
            }
        }
        Ok(true)
    }
}

// Interns the terms of all claims and tries the cases.
fn judge<'a>(
    sheet: &'a Sheet,
    bank: &mut [TermRecord],
    count: &mut Count,
    form: &'a RowRecord,
    labels: &mut [u16],
) -> Result<bool, TableFault>
    requires sound { Sound (sheet_of sheet.now) bank.old count.old.terms 16 form.now }
    requires labelled { 512 ≤ length labels.old }
    ensures { Added bank.old count.old.terms (claim_terms (sheet_of sheet.now) (row_in (sheet_of sheet.now) bank.old form.now)) bank.new count.new.terms (Unbroken (sheet_of sheet.now) (row_in (sheet_of sheet.now) bank.old form.now)) result }
{
    let claims: &[Equation] = &sheet.parts.claims;
    let given = Given::over(sheet, &form.vector, &[]);
    let mut memory = Memory {
        bank,
        count,
        known: [None; MOST_SHEET_TERMS],
    };
    let asked = claims_of(sheet);
    let first = &answers_of(0)[..asked];
    let list = given.ask(&mut memory, claims, first)?;
    let own = &form.conditions[..form.used as usize];
    let conditions = append(list, asked, own);
    let bits = &form.bits[..bits_of(sheet)];
    let Memory {
        bank,
        count,
        known: _,
    } = memory;
    let cases = Cases {
        sheet,
        bits,
        conditions,
    };
    cases.is_unbroken(bank, *count, labels)
}

/// Whether no meaning makes the invariant false in a configuration that the form covers. The labels are work memory;
/// the bank's terms are as they were.
pub fn is_safe(
    sheet: &Sheet,
    bank: &mut [TermRecord],
    count: &mut Count,
    form: &RowRecord,
    labels: &mut [u16],
) -> Result<bool, TableFault>
    ensures judged { Judged (sheet_of sheet.now) bank.old count.old.terms form.now labels.old result }
    ensures kept { Kept bank.old count.old.terms bank.new count.new.terms }
{
    let terms = count.terms as usize;
    if labels.len() < MOST_TERMS || !is_sound(sheet, bank, terms, MOST_CONDITIONS as u8, form) {
        return Err(TableFault::BadMemory);
    }
    let guard = CountGuard::new(&mut *count);
    judge(sheet, bank, &mut *guard.count, form, labels)
}
