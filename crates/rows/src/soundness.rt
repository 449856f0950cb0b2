//! Whether memory holds a row of a sheet.
ghost use Rattle.std.specs.Prelude.{ℕ, ◌<◌, ◌≤◌, length, Decides, slice_index};
ghost use Rattle.sheet.specs.View.{sheet_of};
ghost use Rattle.rows.specs.Records.{Between, Inside, Sound};

use crate::row::RowRecord;
use crate::shape::{bits_of, readings_of};
use banks::is_bank;
use sheet::Sheet;
use terms::{Condition, MOST_TERMS, TermRecord};

fn are_terms(places: &[u16], terms: usize) -> bool
    ensures { Decides result ((k : ℕ) → k < length places.now → slice_index places.now k < terms) }
{
    places.iter().all(|place| (*place as usize) < terms)
}

// Said in `closure` too: a call of `terms` for one comparison would want a contract and an edit.
fn are_between(conditions: &[Condition], terms: usize) -> bool
    ensures { Decides result (Between terms conditions.now (length conditions.now)) }
{
    conditions.iter().all(|condition| (condition.left as usize) < terms
        && (condition.right as usize) < terms)
}

/// Whether the record stands for a row of the sheet with at most `most` conditions, all of whose terms are among the
/// bank's first `terms`.
pub fn is_inside(sheet: &Sheet, terms: usize, most: u8, row: &RowRecord) -> bool
    ensures { Decides result (Inside (sheet_of sheet.now) terms most row.now) }
{
    bits_of(sheet) <= row.bits.len()
        && row.used <= most
        && row
            .vector
            .get(..readings_of(sheet))
            .is_some_and(|places| are_terms(places, terms))
        && row
            .conditions
            .get(..row.used as usize)
            .is_some_and(|conditions| are_between(conditions, terms))
}

/// Whether memory is a bank of 512 places and the record a row of the sheet over its first `terms`.
pub fn is_sound(sheet: &Sheet, bank: &[TermRecord], terms: usize, most: u8, row: &RowRecord) -> bool
    ensures { Decides result (Sound (sheet_of sheet.now) bank.now terms most row.now) }
{
    bank.len() == MOST_TERMS && is_inside(sheet, terms, most, row) && is_bank(bank, terms)
}
