//! What a table tells, without changing it.
ghost use Rattle.std.specs.Prelude.{◌≡◌, ◌<◌, ◌≤◌, length, IsSome, Some, count_by};
ghost use Rattle.rules.specs.Standing.{branches, mark_of, counts_of, is_struck, is_merged, is_kept};
ghost use Rattle.table.specs.Standing.{Tells, rows_of};

use crate::table::Table;
use crate::verdict::{out_in, waiting_in};
use rows::front;
use rules::{Branch, Counts, Mark};

fn struck_in(marks: &[Mark]) -> usize
    ensures { result ≡ count_by is_struck marks.now }
{
    marks.iter().filter(|mark| mark.is_struck()).count()
}

fn merged_in(marks: &[Mark]) -> usize
    ensures { result ≡ count_by is_merged marks.now }
{
    marks.iter().filter(|mark| mark.is_merged()).count()
}

fn kept_in(marks: &[Mark]) -> usize
    ensures { result ≡ count_by is_kept marks.now }
{
    marks.iter().filter(|mark| mark.is_kept()).count()
}

impl Table<'_> {
    /// How many rows the table has.
    pub fn rows(&self) -> u8
        ensures number { result ≡ rows_of self.now }
        ensures few { result ≤ 64 }
        ensures rows { Tells self.now (λ s at. result ≡ length at.rows) }
    {
        self.used
    }

    /// How many branches each row has; 0 where the table has no rows.
    pub fn branches_per_row(&self) -> u8
        ensures branches { Tells self.now (λ s at. 0 < length at.rows → result ≡ branches s) }
        ensures none { Tells self.now (λ s at. length at.rows ≡ 0 → result ≡ 0) }
    {
        if self.rows() == 0 {
            return 0;
        }
        self.branches() as u8
    }

    /// The height bound of the table's sheet; 0 where the table has no rows.
    pub fn bound(&self) -> u8
        ensures bound { Tells self.now (λ s at. 0 < length at.rows → s.bound ≡ Some result) }
        ensures none { Tells self.now (λ s at. length at.rows ≡ 0 → result ≡ 0) }
    {
        if self.rows() == 0 {
            return 0;
        }
        match &self.sheet {
            Some(sheet) => sheet.bound,
            None => 0,
        }
    }

    /// The mark of a branch, where there is such a row and branch.
    pub fn mark(&self, branch: Branch) -> Option<Mark>
        ensures mark { Tells self.now (λ s at. result ≡ mark_of at branch) }
        ensures there { Tells self.now
            (λ s at. branch.row < length at.rows → branch.number < branches s → IsSome result) }
    {
        let place = self.place(branch)?;
        Some(self.marks[place])
    }

    /// How many rows the table has, and how many branches have each mark.
    pub fn counts(&self) -> Counts
        ensures { Tells self.now (λ s at. result ≡ counts_of at) }
    {
        let marks = front(self.marks, self.used as usize * self.branches());
        Counts {
            rows: self.used as usize,
            kept: kept_in(marks),
            merged: merged_in(marks),
            struck: struck_in(marks),
            waiting: waiting_in(marks),
            out: out_in(marks),
        }
    }
}
