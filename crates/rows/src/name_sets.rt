//! The names that stand in a row, as a set, and the lowest that is free.
ghost use Rattle.std.specs.Prelude.{◌≡◌, ℕ, ◌<◌, ◌≤◌, map, length, get_or, take, bit_or, slice_index, slice_index_or};
ghost use Rattle.sheet.specs.View.{sheet_of};
ghost use Rattle.terms.specs.Bank.{Bank, term_at, literal_of, no_record};
ghost use Rattle.forms.specs.Rows.{lowest_free};
ghost use Rattle.rows.specs.Names.{is_in, NamesOfTerms, NamesOfLiterals, NamesOfRow};
ghost use Rattle.rows.specs.Records.{row_in, Between, Inside};

use crate::row::RowRecord;
use crate::shape::readings_of;
use sheet::Sheet;
use terms::{Condition, TermRecord};

/// The element of that number; past the end the default.
// One call of the library with its default, named here for each list that is read so.
pub fn at_or<T: Copy>(xs: &[T], n: usize, default: T) -> T
    ensures { result ≡ slice_index_or xs.now n default }
{
    xs.get(n).copied().unwrap_or(default)
}

fn names_at(bank: &[TermRecord], place: u16) -> u32
    ensures { result ≡ (get_or bank.now place no_record).names }
{
    at_or(bank, place as usize, TermRecord::BLANK).names
}

/// The names in the terms at some places.
pub fn names_of_terms(bank: &[TermRecord], places: &[u16]) -> u32
    ensures { (n : ℕ) → Bank bank.now n → ((k : ℕ) → k < length places.now → slice_index places.now k < n) → NamesOfTerms result (map (term_at bank.now) places.now) }
{
    let mut names = 0;
    for place in places {
        names |= names_at(bank, *place);
    }
    names
}

fn names_of_condition(bank: &[TermRecord], condition: Condition) -> u32
    ensures { result ≡ bit_or (get_or bank.now condition.left no_record).names (get_or bank.now condition.right no_record).names }
{
    names_at(bank, condition.left) | names_at(bank, condition.right)
}

/// The names in some conditions.
// Beside `names_of_terms`: each reads its elements in another way, and a closure for that would be longer.
pub fn names_of_conditions(bank: &[TermRecord], conditions: &[Condition]) -> u32
    ensures { (n : ℕ) → Bank bank.now n → Between n conditions.now (length conditions.now) → NamesOfLiterals result (map (literal_of bank.now) conditions.now) }
{
    let mut names = 0;
    for condition in conditions {
        names |= names_of_condition(bank, *condition);
    }
    names
}

/// The first `n` elements; all where there are fewer.
pub fn front<T>(xs: &[T], n: usize) -> &[T]
    ensures { result.now ≡ take n xs.now }
{
    xs.get(..n).unwrap_or(xs)
}

/// The names that stand in a row.
pub fn names_of_row(sheet: &Sheet, bank: &[TermRecord], row: &RowRecord) -> u32
    ensures { (n most : ℕ) → Bank bank.now n → Inside (sheet_of sheet.now) n most row.now → NamesOfRow result (row_in (sheet_of sheet.now) bank.now row.now) }
{
    names_of_terms(bank, front(&row.vector, readings_of(sheet)))
        | names_of_conditions(bank, front(&row.conditions, row.used as usize))
}

/// The lowest of the 32 names that is not in the set.
pub fn lowest_free(names: u32) -> Option<u8>
    ensures { result ≡ lowest_free (is_in names) }
{
    (0..32).find(|x| (names >> *x) % 2 != 1)
}
