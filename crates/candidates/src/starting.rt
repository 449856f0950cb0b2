//! Row 0 in a bank.
ghost use Rattle.std.specs.Prelude.{◌≡◌, ℕ, ◌<◌, ◌≤◌, [], map, length, slice_index_or};
ghost use Rattle.sheet.specs.System.{no_reading};
ghost use Rattle.sheet.specs.View.{sheet_of};
ghost use Rattle.terms.specs.Bank.{Bank};
ghost use Rattle.forms.specs.Rows.{start_term, start_of, first_row};
ghost use Rattle.forms.specs.Counted.{terms_in};
ghost use Rattle.candidates.specs.Outcome.{StandsFor};
ghost use Rattle.candidates.specs.Working.{Started, Added, Placed, Vectored, Named};

use fault::TableFault;
use rows::RowRecord;
use sheet::{Reading, Sheet, Start};
use terms::{Count, Node, TermRecord, intern};

fn start_place(bank: &mut [TermRecord], count: &mut Count, start: Start) -> Result<u16, TableFault>
    ensures { Started [] bank.old count.old.terms [] → Named start → Placed [] bank.old count.old.terms (start_term start) bank.new count.new.terms [] result }
{
    match start {
        Start::Name(name) => intern(bank, count, Node::Name(name)),
        Start::Constant(symbol) => intern(bank, count, Node::Constant(symbol)),
    }
}

// Beside `next_vector`: a start is a name or a constant, and no term of the sheet is asked for.
fn start_vector(
    bank: &mut [TermRecord],
    count: &mut Count,
    readings: &[Reading],
) -> Result<[u16; 6], TableFault>
    requires { length readings.now ≤ 6 }
    ensures { Started [] bank.old count.old.terms [] → ((k : ℕ) → k < length readings.now → Named (slice_index_or readings.now k no_reading).start) → Added bank.old count.old.terms (map start_of readings.now) bank.new count.new.terms (Vectored bank.new count.new.terms (map start_of readings.now) (length readings.now)) result }
{
    let mut out = [0; 6];
    // By number: of what a loop over `iter_mut().zip(..)` has written nothing can be proved.
    for (k, reading) in readings.iter().enumerate() {
        out[k] = start_place(bank, count, reading.start)?;
    }
    Ok(out)
}

/// Row 0 of a sheet: the start bits, a term for each reading's start, and no condition.
pub(crate) fn start_row(
    sheet: &Sheet,
    bank: &mut [TermRecord],
    count: &mut Count,
) -> Result<RowRecord, TableFault>
    requires long { length bank.old ≡ 512 }
    requires bank { Bank bank.old count.old.terms }
    ensures { Added bank.old count.old.terms (terms_in (first_row (sheet_of sheet.now))) bank.new count.new.terms (StandsFor (sheet_of sheet.now) bank.new count.new.terms 16 (first_row (sheet_of sheet.now))) result }
{
    let vector = start_vector(bank, count, &sheet.parts.readings)?;
    let bits = sheet.start_bits();
    Ok(RowRecord {
        bits,
        vector,
        ..RowRecord::BLANK
    })
}
