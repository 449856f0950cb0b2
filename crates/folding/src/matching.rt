//! Whether an older row takes a form.
ghost use Rattle.std.specs.Prelude.{◌≡◌, ℕ, ◌<◌, ◌≤◌, true, List, ◌∷◌, length, take, Decides, MatchOption};
ghost use Rattle.std.specs.List.{AllByRecursion};
ghost use Rattle.sheet.specs.View.{sheet_of};
ghost use Rattle.terms.specs.Terms.{Entails, Term};
ghost use Rattle.terms.specs.Bank.{Stays, literal_of};
ghost use Rattle.closure.specs.Labels.{Ready, literals};
ghost use Rattle.forms.specs.Counted.{FitsVector};
ghost use Rattle.forms.specs.Form.{is_named};
ghost use Rattle.rows.specs.Records.{Between, Inside, row_in};
ghost use Rattle.folding.specs.Dropping.{NamesIn};
ghost use Rattle.folding.specs.Matched.{Comparable, MatchCovering, Matched, Weighable, Weighed, sends};

use crate::change::Change;
use crate::renaming::Renaming;
use crate::rewriting::Rewriting;
use crate::view::View;
use closure::entails;
use fault::TableFault;
use rows::{MOST_CONDITIONS, RowRecord, bits_of, is_inside, is_sound, readings_of};
use sheet::Sheet;
use terms::{Condition, Count, CountGuard, MOST_TERMS, TermRecord};

impl View<'_> {
    /// A renaming that makes the older row's vector the form's, where the bits are the same.
    fn fit_vector(&self, sheet: &Sheet, older: &RowRecord, form: &RowRecord) -> Option<Renaming>
        requires older { Inside (sheet_of sheet.now) self.now.count.terms 16 older.now }
        requires form { Inside (sheet_of sheet.now) self.now.count.terms 16 form.now }
        ensures { MatchOption result ((f : ℕ → ℕ) → FitsVector f (row_in (sheet_of sheet.now) self.now.records.now older.now) (row_in (sheet_of sheet.now) self.now.records.now form.now) → ⊥) (λ found. FitsVector (sends found) (row_in (sheet_of sheet.now) self.now.records.now older.now) (row_in (sheet_of sheet.now) self.now.records.now form.now)) }
    {
        let bits = bits_of(sheet);
        if older.bits[..bits] != form.bits[..bits] {
            return None;
        }
        let readings = readings_of(sheet);
        self.match_terms(&older.vector[..readings], &form.vector[..readings])
    }

    /// Whether the given conditions entail the goal.
    fn is_entailed(&self, given: &[Condition], goal: Condition, labels: &mut [u16]) -> bool
        requires ready { Ready self.now.records.now self.now.count.terms (goal ∷ given.now) labels.old }
        ensures { Decides result (Entails (literals self.now.records.now given.now) (literal_of self.now.records.now goal)) }
    {
        entails(self.records, self.count, given, goal, labels).unwrap_or(false)
    }

    /// Whether the given conditions entail each of the goals.
    fn are_entailed(&self, given: &[Condition], goals: &[Condition], labels: &mut [u16]) -> bool
        requires labelled { 512 ≤ length labels.old }
        requires given { Between self.now.count.terms given.now (length given.now) }
        requires goals { Between self.now.count.terms goals.now (length goals.now) }
        ensures { Decides result (AllByRecursion (Entails (literals self.now.records.now given.now)) (literals self.now.records.now goals.now)) }
    {
        // A loop, since each question writes the labels: for `all` the closure would have to say what it leaves of them.
        for goal in goals {
            if !self.is_entailed(given, *goal, labels) {
                return false;
            }
        }
        true
    }

    /// Whether the conditions have no name but `names`.
    fn are_named(&self, names: u32, conditions: &[Condition]) -> bool
        requires { Between self.now.count.terms conditions.now (length conditions.now) }
        ensures { (vector : List Term) → NamesIn names vector → Decides result (AllByRecursion (λ c. is_named vector c ≡ true) (literals self.now.records.now conditions.now)) }
    {
        conditions
            .iter()
            .all(|condition| self.is_named(names, *condition))
    }
}

// The lent memory comes in parts, here and below: a struct of it would have to say of each part what stays.
/// Adds the older row's conditions, renamed, to the bank, and answers whether the form's entail them.
fn compare_conditions(
    bank: &mut [TermRecord],
    count: &mut Count,
    renaming: &Renaming,
    older: &RowRecord,
    form: &RowRecord,
    labels: &mut [u16],
) -> Result<bool, TableFault>
    requires { Weighable bank.old count.old.terms renaming.now older.now form.now labels.old }
    ensures answer { Weighed bank.old count.old.terms (sends renaming.now) (literals bank.old (take older.now.used older.now.conditions)) (literals bank.old (take form.now.used form.now.conditions)) result }
    ensures stays { Stays count.old.terms bank.old bank.new }
{
    let change = Change::Rename(renaming.to);
    let mut rewriting = Rewriting {
        bank: &mut *bank,
        count: &mut *count,
        change: &change,
        known: [None; MOST_TERMS],
    };
    let mut renamed = older.conditions;
    let used = older.used as usize;
    rewriting.rewrite_conditions(&mut renamed[..used])?;
    let view = View {
        records: bank,
        count: *count,
    };
    let given = &form.conditions[..form.used as usize];
    Ok(view.are_entailed(given, &renamed[..used], labels))
}

/// Whether the form's conditions entail the older row's, renamed. These are working terms, and leave the bank again.
fn weigh_conditions(
    bank: &mut [TermRecord],
    count: &mut Count,
    renaming: &Renaming,
    older: &RowRecord,
    form: &RowRecord,
    labels: &mut [u16],
) -> Result<bool, TableFault>
    requires { Weighable bank.old count.old.terms renaming.now older.now form.now labels.old }
    ensures answer { Weighed bank.old count.old.terms (sends renaming.now) (literals bank.old (take older.now.used older.now.conditions)) (literals bank.old (take form.now.used form.now.conditions)) result }
    ensures count { count.new ≡ count.old }
    ensures stays { Stays count.old.terms bank.old bank.new }
{
    let guard = CountGuard::new(&mut *count);
    compare_conditions(bank, &mut *guard.count, renaming, older, form, labels)
}

/// Whether memory holds two rows that can be compared, and has a label for each term.
fn are_comparable(
    sheet: &Sheet,
    bank: &[TermRecord],
    count: Count,
    older: &RowRecord,
    form: &RowRecord,
    labels: &[u16],
) -> bool
    ensures { Decides result (Comparable (sheet_of sheet.now) bank.now count.terms older.now form.now labels.now) }
{
    let most = MOST_CONDITIONS as u8;
    let terms = count.terms as usize;
    if labels.len() < MOST_TERMS {
        return false;
    }
    if !is_sound(sheet, bank, terms, most, older) {
        return false;
    }
    if !is_inside(sheet, terms, most, form) {
        return false;
    }
    let view = View {
        records: bank,
        count,
    };
    let names = view.names_in(&older.vector[..readings_of(sheet)]);
    view.are_named(names, &older.conditions[..older.used as usize])
}

/// Whether some renaming of the older row's names makes it take the form. The labels are work memory; the bank's terms
/// are as they were.
pub fn takes(
    sheet: &Sheet,
    bank: &mut [TermRecord],
    count: &mut Count,
    older: &RowRecord,
    form: &RowRecord,
    labels: &mut [u16],
) -> Result<Option<Renaming>, TableFault>
    ensures answer { Matched (sheet_of sheet.now) bank.old count.old.terms older.now form.now labels.old result }
    ensures covers { MatchCovering (row_in (sheet_of sheet.now) bank.old older.now) (row_in (sheet_of sheet.now) bank.old form.now) result }
    ensures count { count.new ≡ count.old }
    ensures stays { Stays count.old.terms bank.old bank.new }
{
    if !are_comparable(sheet, bank, *count, older, form, labels) {
        return Err(TableFault::BadMemory);
    }
    let view = View {
        records: bank,
        count: *count,
    };
    let Some(renaming) = view.fit_vector(sheet, older, form) else {
        return Ok(None);
    };
    let entailed = weigh_conditions(bank, count, &renaming, older, form, labels)?;
    Ok(entailed.then_some(renaming))
}
