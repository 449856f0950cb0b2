//! The table, and its opening.
ghost use Rattle.table.specs.Memory.{FitsIfOpen, FitsIfOpen-prop};

use crate::opening::begin;
use crate::places::{branches_of, wait};
use fault::TableFault;
use rows::RowRecord;
use rules::Mark;
use sheet::Sheet;
use terms::{Count, MOST_TERMS, TermRecord};

const MOST_ROWS: usize = 64;

const MARKS: usize = 4096;

/// A check table, over memory that it is lent for its life. It is open on a sheet, or has no rows.
#[derive(Drop)]
pub struct Table<'a> {
    pub(crate) sheet: Option<Sheet>,
    pub(crate) limit: u8,
    pub(crate) used: u8,
    pub(crate) count: Count,
    pub(crate) bank: &'a mut [TermRecord],
    pub(crate) rows: &'a mut [RowRecord],
    pub(crate) marks: &'a mut [Mark],
    pub(crate) work: &'a mut [u16],
    ghost fits: { FitsIfOpen sheet bank.now count.terms rows.now used limit marks.now work.now } by { FitsIfOpen-prop sheet bank.now count.terms rows.now used limit marks.now work.now },
}

impl<'a> Table<'a> {
    ghost use Rattle.std.specs.Prelude.{ℕ, length};
    ghost use Rattle.sheet.specs.System.{System};
    ghost use Rattle.rules.specs.Standing.{unopened};
    ghost use Rattle.table.specs.Memory.{HasLengths};
    ghost use Rattle.table.specs.Standing.{Stands, Fits, HasMemory};

    /// A table that was never opened, over memory of any length.
    pub fn new(
        bank: &'a mut [TermRecord],
        rows: &'a mut [RowRecord],
        marks: &'a mut [Mark],
        work: &'a mut [u16],
    ) -> Table<'a>
        ensures unopened { (s : System) (limit : ℕ) → Stands s limit result unopened }
        ensures memory { HasMemory result (length bank.old) (length rows.old)
            (length marks.old) (length work.old) }
        ensures fits { HasLengths (length bank.old) (length rows.old)
            (length marks.old) (length work.old) → Fits result }
    {
        Table {
            sheet: None,
            limit: 0,
            used: 0,
            count: Count { terms: 0 },
            bank,
            rows,
            marks,
            work,
        }
    }
}

impl Table<'_> {
    ghost use Rattle.sheet.specs.View.{sheet_of};
    ghost use Rattle.table.specs.Standing.{Opened, KeepsMemory};

    /// Opens the table on a sheet, which it keeps, with a row limit; or opens it anew. After a refusal it has no rows.
    pub fn open(&mut self, sheet: Sheet, limit: u8) -> Result<(), TableFault>
        ensures opened { Opened (sheet_of sheet) limit self.old self.new result }
        ensures memory { KeepsMemory self.old self.new }
    {
        self.used = 0;
        self.sheet = None;
        self.count = Count { terms: 0 };
        if limit < 1
            || limit as usize > MOST_ROWS
            || self.bank.len() != MOST_TERMS
            || self.rows.len() != MOST_ROWS
            || self.marks.len() != MARKS
            || self.work.len() != MOST_TERMS
        {
            return Err(TableFault::BadMemory);
        }
        let mut count = Count { terms: 0 };
        match begin(&sheet, self.bank, &mut count, self.work) {
            Ok(row) => {
                wait(self.marks, 0, branches_of(&sheet));
                self.rows[0] = row;
                self.sheet = Some(sheet);
                self.limit = limit;
                self.used = 1;
                self.count = count;
                Ok(())
            }
            Err(fault) => Err(fault),
        }
    }
}
