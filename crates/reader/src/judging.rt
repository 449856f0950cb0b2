//! The rules for the next record, after those that a draft describes.
ghost use Rattle.std.specs.Prelude.{◌≡◌, ◌+◌, ◌<◌, ◌&&◌, map, length, get_or, nat_lt, slice_index, slice_index_or};
ghost use Rattle.reader.specs.Decode.{decoded, judge};
ghost use Rattle.sheet.specs.Stored.{term_info_in, formula_info_in};
ghost use Rattle.sheet.specs.Format.{body_length, kind_of};
ghost use Rattle.reader.specs.Outcome.{complete};
ghost use Rattle.sheet.specs.Rules.{no_info, plain, room, names, keeps, count, fresh, args_below, args_info};
ghost use Rattle.sheet.specs.System.{no_bit, no_reading};
ghost use Rattle.reader.specs.Drafts.{draft_of};

use crate::decode::{decode_bit, decode_choice, decode_formula, decode_start, decode_term};
use crate::draft::Draft;
use fault::SheetFault;
use sheet::{Args, Choice, Equation, Formula, FormulaInfo, Kind, Record, Start, Term, TermInfo};

impl Draft {
    // Whether one more of this letter is allowed.
    fn has_room(&self, kind: Kind) -> bool
        ensures { result ≡ room (draft_of self.now) kind }
    {
        kind.most().is_none_or(|most| self.count(kind) < most)
    }

    pub(crate) fn arity(&self, symbol: u8) -> u8
        ensures { result ≡ slice_index self.now.parts.symbols.items symbol }
    {
        self.parts
            .symbols
            .get(symbol as usize)
            .copied()
            .unwrap_or(0)
    }

    // Beside `formula_info`: each reads another list, whose entries are of another type, in two lines.
    pub(crate) fn term_info(&self, term: u8) -> TermInfo
        ensures { result ≡ slice_index_or (map term_info_in self.now.parts.terms.items) term no_info }
    {
        let entry = self.parts.terms.get(term as usize);
        entry.map_or(TermInfo::BLANK, |entry| entry.info)
    }

    pub(crate) fn formula_info(&self, formula: u8) -> FormulaInfo
        ensures { result ≡ slice_index_or (map formula_info_in self.now.parts.formulas.items) formula plain }
    {
        let entry = self.parts.formulas.get(formula as usize);
        entry.map_or(FormulaInfo::BLANK, |entry| entry.info)
    }

    fn decode(&self, kind: Kind, body: &[u8]) -> Option<Record>
        requires { length body.now ≡ body_length kind }
        ensures { result ≡ decoded (draft_of self.now) kind body.now }
    {
        match (kind, body) {
            (Kind::Bit, &[start]) => decode_bit(start).map(Record::Bit),
            (Kind::Symbol, &[arity]) => Some(Record::Symbol(arity)),
            (Kind::Reading, &[way, number]) => decode_start(way, number).map(Record::Reading),
            (Kind::Input, _) => Some(Record::Input),
            (Kind::Term, &[way, number, a, b, c]) => {
                decode_term([way, number, a, b, c], self.arity(number)).map(Record::Term)
            }
            (Kind::Question, &[left, right]) => Some(Record::Question(Equation { left, right })),
            (Kind::Claim, &[left, right]) => Some(Record::Claim(Equation { left, right })),
            (Kind::Formula, &[way, a, b]) => decode_formula([way, a, b]).map(Record::Formula),
            (Kind::Choice, &[way, a, b, c]) => {
                decode_choice([way, a, b, c]).map(Record::Choice)
            },
            (Kind::NextBit, &[bit, formula]) => Some(Record::NextBit(bit, formula)),
            (Kind::NextReading, &[reading, choice]) => Some(Record::NextReading(reading, choice)),
            (Kind::Invariant, &[formula]) => Some(Record::Invariant(formula)),
            (Kind::Bound, &[height]) => Some(Record::Bound(height)),
            // The end record, since each body is as long as its kind asks for.
            _ => None,
        }
    }

    // How many things of this letter there are.
    fn count(&self, kind: Kind) -> usize
        ensures { result ≡ count (draft_of self.now) kind }
    {
        match kind {
            Kind::Bit => self.parts.bits.len(),
            Kind::Symbol => self.parts.symbols.len(),
            Kind::Reading => self.parts.readings.len(),
            Kind::Input => self.parts.inputs as usize,
            Kind::Term => self.parts.terms.len(),
            Kind::Question => self.parts.questions.len(),
            Kind::Claim => self.parts.claims.len(),
            Kind::Formula => self.parts.formulas.len(),
            Kind::Choice => self.parts.choices.len(),
            Kind::NextBit | Kind::NextReading | Kind::Invariant | Kind::Bound | Kind::End => 0,
        }
    }

    fn has(&self, kind: Kind, number: u8) -> bool
        ensures { result ≡ nat_lt number (count (draft_of self.now) kind) }
    {
        (number as usize) < self.count(kind)
    }

    fn has_both(&self, kind: Kind, a: u8, b: u8) -> bool
        ensures { result ≡ (nat_lt a (count (draft_of self.now) kind) && nat_lt b (count (draft_of self.now) kind)) }
    {
        self.has(kind, a) && self.has(kind, b)
    }

    fn has_args(&self, args: Args) -> bool
        ensures { result ≡ args_below (count (draft_of self.now) Kind.Term) args }
    {
        match args {
            Args::Zero => true,
            Args::One(a) => self.has(Kind::Term, a),
            Args::Two(a, b) => self.has_both(Kind::Term, a, b),
            Args::Three(a, b, c) => self.has(Kind::Term, a) && self.has_both(Kind::Term, b, c),
        }
    }

    // Whether the record names only things that are there.
    fn names(&self, what: Record) -> bool
        ensures { result ≡ names (draft_of self.now) (count (draft_of self.now) (kind_of what)) what }
    {
        match what {
            Record::Bit(_) | Record::Symbol(_) | Record::Input | Record::Bound(_) => true,
            Record::Reading(Start::Name(_)) => true,
            Record::Reading(Start::Constant(symbol)) => self.has(Kind::Symbol, symbol),
            Record::Term(Term::Reading(reading)) => self.has(Kind::Reading, reading),
            Record::Term(Term::Input(input)) => self.has(Kind::Input, input),
            Record::Term(Term::Apply(symbol, args)) => self.has(Kind::Symbol, symbol)
                && self.has_args(args),
            Record::Question(e) => self.has_both(Kind::Term, e.left, e.right),
            Record::Claim(e) => self.has_both(Kind::Term, e.left, e.right),
            Record::Formula(formula) => self.formula_names(formula),
            Record::Choice(Choice::Term(term)) => self.has(Kind::Term, term),
            Record::Choice(Choice::If(formula, a, b)) => self.has(Kind::Formula, formula)
                && self.has_both(Kind::Choice, a, b),
            Record::NextBit(bit, formula) => self.has(Kind::Bit, bit)
                && self.has(Kind::Formula, formula),
            Record::NextReading(reading, choice) => self.has(Kind::Reading, reading)
                && self.has(Kind::Choice, choice),
            Record::Invariant(formula) => self.has(Kind::Formula, formula),
        }
    }

    fn formula_names(&self, formula: Formula) -> bool
        ensures { result ≡ names (draft_of self.now) (count (draft_of self.now) Kind.Formula) (Record.Formula formula) }
    {
        match formula {
            Formula::True => true,
            Formula::Bit(bit) => self.has(Kind::Bit, bit),
            Formula::Question(question) => self.has(Kind::Question, question),
            Formula::Claim(claim) => self.has(Kind::Claim, claim),
            Formula::Not(a) => self.has(Kind::Formula, a),
            Formula::And(a, b) => self.has_both(Kind::Formula, a, b),
            Formula::Or(a, b) => self.has_both(Kind::Formula, a, b),
        }
    }

    // Whether the record gives nothing that an earlier one gave.
    fn is_fresh(&self, what: Record) -> bool
        ensures { result ≡ fresh (draft_of self.now) what }
    {
        match what {
            Record::NextBit(bit, _) => self.bit_next(bit).is_none(),
            Record::NextReading(reading, _) => self.reading_next(reading).is_none(),
            Record::Invariant(_) => self.invariant.is_none(),
            Record::Bound(_) => self.bound.is_none(),
            _ => true,
        }
    }

    fn bit_next(&self, bit: u8) -> Option<u8>
        ensures { result ≡ (get_or self.now.parts.bits.items bit no_bit).next }
    {
        self.parts.bits.get(bit as usize).and_then(|bit| bit.next)
    }

    // Beside `bit_next`: a field of the same name in another struct.
    fn reading_next(&self, reading: u8) -> Option<u8>
        ensures { result ≡ (get_or self.now.parts.readings.items reading no_reading).next }
    {
        self.parts
            .readings
            .get(reading as usize)
            .and_then(|reading| reading.next)
    }

    // Whether the invariant and the height bound are given.
    pub(crate) fn is_complete(&self) -> bool
        ensures { result ≡ complete (draft_of self.now) }
    {
        self.invariant.is_some() && self.bound.is_some()
    }

    // The record that the body writes, or the first rule against it.
    pub(crate) fn judge(&self, kind: Kind, body: &[u8]) -> Result<Record, SheetFault>
        requires { length body.now ≡ body_length kind }
        ensures { result ≡ judge (draft_of self.now) kind body.now }
    {
        if !self.has_room(kind) {
            return Err(SheetFault::TooMany);
        }
        let record = self.decode(kind, body).ok_or(SheetFault::BadBody)?;
        if !(self.names(record) && self.keeps(record)) {
            return Err(SheetFault::BadBody);
        }
        if !self.is_fresh(record) {
            return Err(SheetFault::Repeated);
        }
        Ok(record)
    }
}
