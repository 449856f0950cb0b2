//! What a record that obeys the rules adds to a draft.
ghost use Rattle.std.specs.Prelude.{◌≡◌, true, OnOk};
ghost use Rattle.sheet.specs.Rules.{keeps, room};
ghost use Rattle.sheet.specs.Format.{kind_of};
ghost use Rattle.reader.specs.Drafts.{draft_of, Added};

use crate::draft::Draft;
use sheet::{Bit, Formula, FormulaEntry, Reading, Record, Term, TermEntry};
use std::alloc::AllocError;

impl Draft {
    // Beside `add_formula`: each adds to another list, whose entries are of another type.
    fn add_term(&mut self, term: Term) -> Result<(), AllocError>
        requires { keeps (draft_of self.old) (Record.Term term) ≡ true }
        ensures { OnOk result (Added self.old (Record.Term term) self.new) }
    {
        let info = self.info_of_term(term);
        self.parts.terms.push(TermEntry { term, info })?;
        Ok(())
    }

    fn add_formula(&mut self, formula: Formula) -> Result<(), AllocError>
        ensures { OnOk result (Added self.old (Record.Formula formula) self.new) }
    {
        let info = self.info_of_formula(formula);
        self.parts.formulas.push(FormulaEntry { formula, info })?;
        Ok(())
    }

    fn set_next_bit(&mut self, bit: u8, formula: u8)
        ensures { Added self.old (Record.NextBit bit formula) self.new }
    {
        if let Some(bit) = self.parts.bits.get_mut(bit as usize) {
            bit.next = Some(formula);
        }
    }

    // Beside `set_next_bit`: a field of the same name in another struct.
    fn set_next_reading(&mut self, reading: u8, choice: u8)
        ensures { Added self.old (Record.NextReading reading choice) self.new }
    {
        if let Some(reading) = self.parts.readings.get_mut(reading as usize) {
            reading.next = Some(choice);
        }
    }

    // Adds what the record says. After want of memory the draft is of no use.
    pub(crate) fn add(&mut self, what: Record) -> Result<(), AllocError>
        requires room { room (draft_of self.old) (kind_of what) ≡ true }
        requires kept { keeps (draft_of self.old) what ≡ true }
        ensures { OnOk result (Added self.old what self.new) }
    {
        match what {
            Record::Bit(start) => self.parts.bits.push(Bit { start, next: None })?,
            Record::Symbol(arity) => self.parts.symbols.push(arity)?,
            Record::Reading(start) => self.parts.readings.push(Reading { start, next: None })?,
            Record::Input => self.parts.inputs += 1,
            Record::Term(term) => self.add_term(term)?,
            Record::Question(question) => self.parts.questions.push(question)?,
            Record::Claim(claim) => self.parts.claims.push(claim)?,
            Record::Formula(formula) => self.add_formula(formula)?,
            Record::Choice(choice) => self.parts.choices.push(choice)?,
            Record::NextBit(bit, formula) => self.set_next_bit(bit, formula),
            Record::NextReading(reading, choice) => self.set_next_reading(reading, choice),
            Record::Invariant(formula) => self.invariant = Some(formula),
            Record::Bound(bound) => self.bound = Some(bound),
        }
        Ok(())
    }
}
