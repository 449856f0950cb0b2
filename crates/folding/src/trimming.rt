//! The conditions of a form: of a row's, those that are low and named by its vector, each once, up to sixteen.
ghost use Rattle.std.specs.Prelude.{◌≡◌, ℕ, ◌<◌, List, map, length, slice_index};
ghost use Rattle.sheet.specs.View.{sheet_of};
ghost use Rattle.terms.specs.Terms.{Term};
ghost use Rattle.terms.specs.Bank.{term_at, literal_of};
ghost use Rattle.forms.specs.Form.{is_low, is_named, trimmed};
ghost use Rattle.rows.specs.Records.{Inside, row_in};
ghost use Rattle.folding.specs.Dropping.{NamesIn};

use crate::view::View;
use rows::{MOST_CONDITIONS, RowRecord, names_of_terms, readings_of};
use sheet::Sheet;
use terms::Condition;

impl View<'_> {
    /// The set of the names that stand in the terms at these places.
    pub(crate) fn names_in(&self, places: &[u16]) -> u32
        requires { (k : ℕ) → k < length places.now → slice_index places.now k < self.now.count.terms }
        ensures { NamesIn result (map (term_at self.now.records.now) places.now) }
    {
        names_of_terms(self.records, places)
    }

    /// Whether the condition has no name but `names`.
    pub(crate) fn is_named(&self, names: u32, condition: Condition) -> bool
        requires left { condition.left < self.now.count.terms }
        requires right { condition.right < self.now.count.terms }
        ensures { (vector : List Term) → NamesIn names vector → result ≡ is_named vector (literal_of self.now.records.now condition) }
    {
        let left = self.records[condition.left as usize].names;
        let right = self.records[condition.right as usize].names;
        left | names == names && right | names == names
    }

    /// Whether both terms of the condition are at most `height` high.
    fn is_low(&self, height: u8, condition: Condition) -> bool
        requires left { condition.left < self.now.count.terms }
        requires right { condition.right < self.now.count.terms }
        ensures { result ≡ is_low height (literal_of self.now.records.now condition) }
    {
        let left = self.records[condition.left as usize].height;
        let right = self.records[condition.right as usize].height;
        left <= height as u16 && right <= height as u16
    }

    /// The row with the conditions that its form has: in order, those with terms at most `height` high, all of whose
    /// names stand in the vector, each once, up to sixteen.
    pub(crate) fn trim_row(&self, sheet: &Sheet, height: u8, row: RowRecord) -> RowRecord
        requires { Inside (sheet_of sheet.now) self.now.count.terms 22 row }
        ensures trimmed { row_in (sheet_of sheet.now) self.now.records.now result ≡ trimmed height (row_in (sheet_of sheet.now) self.now.records.now row) }
        ensures inside { Inside (sheet_of sheet.now) self.now.count.terms 16 result }
    {
        let names = self.names_in(&row.vector[..readings_of(sheet)]);
        let mut conditions = row.conditions;
        // Counted, since the conditions that are kept stand in an array of fixed size.
        let mut used = 0;
        for condition in &row.conditions[..row.used as usize] {
            if used < MOST_CONDITIONS
                && self.is_low(height, *condition)
                && self.is_named(names, *condition)
                && !conditions[..used].contains(condition)
            {
                conditions[used] = *condition;
                used += 1;
            }
        }
        RowRecord {
            conditions,
            used: used as u8,
            ..row
        }
    }
}
