//! Cuts: while a vector term is too high, a term of height 1 in it becomes a name.
ghost use Rattle.std.specs.Prelude.{◌≡◌, ℕ, suc, ◌<◌, map, length, Some, None, MatchOption, MatchResult, slice_index};
ghost use Rattle.sheet.specs.View.{sheet_of};
ghost use Rattle.terms.specs.Terms.{height};
ghost use Rattle.terms.specs.Bank.{term_at};
ghost use Rattle.forms.specs.Form.{first_higher, lowest};
ghost use Rattle.forms.specs.Counted.{terms_in};
ghost use Rattle.rows.specs.Records.{row_in, Sound};
ghost use Rattle.folding.specs.Outcome.{CutMade, CutRefused, CutsMade, CutsRefused};
ghost use Rattle.folding.specs.Rewriting.{Refused, Suits};
ghost use Rattle.folding.specs.Rewritten.{changed_row, RowChanged};

use crate::change::Change;
use crate::rewriting::Rewriting;
use crate::view::View;
use fault::TableFault;
use rows::{RowRecord, lowest_free, names_of_row, readings_of};
use sheet::Sheet;
use terms::{Count, MOST_TERMS, Node, TermRecord};

impl View<'_> {
    /// The first of the terms at these places that is higher than `bound`.
    fn first_higher(&self, places: &[u16], bound: u8) -> Option<u16>
        requires { (k : ℕ) → k < length places.now → slice_index places.now k < self.now.count.terms }
        ensures { MatchOption result (first_higher bound (map (term_at self.now.records.now) places.now) ≡ None) (λ p. (p < self.now.count.terms) × (first_higher bound (map (term_at self.now.records.now) places.now) ≡ Some (term_at self.now.records.now p)) × (bound < height (term_at self.now.records.now p))) }
    {
        places.iter().copied().find(|place| self.records[*place as usize].height > bound as u16)
    }

    /// The first argument exactly one lower than the term, which is higher than 1.
    fn step_down(&self, place: u16) -> u16
        requires inside { place < self.now.count.terms }
        requires high { 1 < height (term_at self.now.records.now place) }
        ensures lower { result < place }
        ensures way { lowest (term_at self.now.records.now place) ≡ lowest (term_at self.now.records.now result) }
        ensures one { height (term_at self.now.records.now place) ≡ suc (height (term_at self.now.records.now result)) }
    {
        let term = self.records[place as usize];
        let lower = term.height - 1;
        match term.node {
            Node::Name(_) | Node::Constant(_) => place,
            Node::Unary(_, a) => a,
            Node::Binary(_, a, b) => {
                if self.records[a as usize].height == lower {
                    a
                } else {
                    b
                }
            }
            Node::Ternary(_, a, b, c) => {
                if self.records[a as usize].height == lower {
                    a
                } else if self.records[b as usize].height == lower {
                    b
                } else {
                    c
                }
            }
        }
    }

    /// The place of the term of height 1 to which the way down from `place` leads.
    fn way_down(&self, place: u16) -> u16
        requires inside { place < self.now.count.terms }
        requires high { 0 < height (term_at self.now.records.now place) }
        ensures inside { result < self.now.count.terms }
        ensures is { term_at self.now.records.now result ≡ lowest (term_at self.now.records.now place) }
    {
        let mut at = place;
        while self.records[at as usize].height > 1 {
            at = self.step_down(at);
        }
        at
    }
}

// A row comes beside its bank, here and below: the bank is lent and the row is built, and both change with each cut.
/// The row with the change made throughout. What a place became is remembered for this change alone.
fn rewrite_row(
    sheet: &Sheet,
    bank: &mut [TermRecord],
    count: &mut Count,
    change: &Change,
    row: RowRecord,
) -> Result<RowRecord, TableFault>
    requires sound { Sound (sheet_of sheet.now) bank.old count.old.terms 22 row }
    requires suits { Suits count.old.terms change.now }
    ensures { MatchResult result (λ made. RowChanged (sheet_of sheet.now) bank.old count.old.terms change.now row bank.new count.new.terms made) (λ e. Refused bank.old count.old.terms (terms_in (changed_row bank.old change.now (row_in (sheet_of sheet.now) bank.old row))) bank.new count.new.terms e) }
{
    let mut vector = row.vector;
    let mut conditions = row.conditions;
    let mut rewriting = Rewriting {
        bank,
        count,
        change,
        known: [None; MOST_TERMS],
    };
    let readings = readings_of(sheet);
    rewriting.rewrite_places(&mut vector[..readings])?;
    let used = row.used as usize;
    rewriting.rewrite_conditions(&mut conditions[..used])?;
    Ok(RowRecord {
        vector,
        conditions,
        ..row
    })
}

/// One cut below the vector's term at `place`, which is too high.
fn cut_once(
    sheet: &Sheet,
    bank: &mut [TermRecord],
    count: &mut Count,
    row: RowRecord,
    place: u16,
) -> Result<RowRecord, TableFault>
    requires sound { Sound (sheet_of sheet.now) bank.old count.old.terms 22 row }
    requires inside { place < count.old.terms }
    requires high { 0 < height (term_at bank.old place) }
    ensures { MatchResult result (λ next. CutMade (sheet_of sheet.now) bank.old count.old.terms row (term_at bank.old place) bank.new count.new.terms next) (λ e. CutRefused (sheet_of sheet.now) bank.old count.old.terms row (term_at bank.old place) bank.new count.new.terms e) }
{
    let view = View {
        records: bank,
        count: *count,
    };
    let old = view.way_down(place);
    let names = names_of_row(sheet, bank, &row);
    let name = lowest_free(names).ok_or(TableFault::NamesExhausted)?;
    rewrite_row(sheet, bank, count, &Change::Replace(old, name), row)
}

/// The row after all its cuts: no vector term is higher than `bound`.
pub(crate) fn cut(
    sheet: &Sheet,
    bank: &mut [TermRecord],
    count: &mut Count,
    bound: u8,
    row: RowRecord,
) -> Result<RowRecord, TableFault>
    requires sound { Sound (sheet_of sheet.now) bank.old count.old.terms 22 row }
    ensures { MatchResult result (λ end. CutsMade (sheet_of sheet.now) bank.old count.old.terms row bound bank.new count.new.terms end) (λ e. CutsRefused (sheet_of sheet.now) bank.old count.old.terms row bound bank.new count.new.terms e) }
{
    let readings = readings_of(sheet);
    let mut made = row;
    loop {
        let view = View {
            records: bank,
            count: *count,
        };
        let Some(place) = view.first_higher(&made.vector[..readings], bound) else {
            return Ok(made);
        };
        made = cut_once(sheet, bank, count, made, place)?;
    }
}
