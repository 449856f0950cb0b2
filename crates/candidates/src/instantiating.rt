//! The sheet's terms over a row: a wanted term is interned with the terms below it, by recursion on falling numbers.
//! What is known already is not interned again, so however often terms are shared, each is interned once.
ghost use Rattle.std.specs.Prelude.{◌≡◌, List, map, length, take, slice_index_or};
ghost use Rattle.sheet.specs.Memo.{before};
ghost use Rattle.sheet.specs.Stored.{term_in};
ghost use Rattle.sheet.specs.View.{sheet_of};
ghost use Rattle.terms.specs.Terms.{Term as BankTerm};
ghost use Rattle.terms.specs.Bank.{Fit, term_of, term_at};
ghost use Rattle.forms.specs.Candidate.{no_term};
ghost use Rattle.candidates.specs.Working.{Started, Placed, Lent, Places};

use fault::TableFault;
use rows::{at_or, readings_of};
use sheet::{Args, Sheet, Term, TermEntry, recall, remember};
use terms::{Count, Node, TermRecord, intern, intern_above};

/// How many terms are remembered: as many as a sheet can have, in memory of fixed size, since nothing is allocated.
pub(crate) const MOST_SHEET_TERMS: usize = 64;

/// The sheet's terms, the places of a row's vector and the names of the inputs.
#[derive(Clone, Copy)]
pub(crate) struct Given<'a> {
    pub(crate) terms: &'a [TermEntry],
    pub(crate) vector: &'a [u16],
    pub(crate) inputs: &'a [u8],
}

/// A lent bank, and the places in it of the terms that are interned.
// Apart from what is given, which stays as it is while terms are interned. The loans are the caller's, so each call says
// by `Lent` that it gives them back, and each caller makes this itself: a call would have to say that it holds the loans.
#[derive(Drop)]
pub(crate) struct Memory<'a> {
    pub(crate) bank: &'a mut [TermRecord],
    pub(crate) count: &'a mut Count,
    pub(crate) known: [Option<u16>; MOST_SHEET_TERMS],
}

impl Memory<'_> {
    // Interns a node as term n.
    fn add(&mut self, n: usize, node: Node) -> Result<u16, TableFault>
        ensures lent { Lent self.old self.new }
        ensures placed { (values : List BankTerm) → Started values self.old.bank.now self.old.count.now.terms self.old.known → Fit self.old.count.now.terms node → (t : BankTerm) → term_of (term_at self.old.bank.now) node ≡ t → t ≡ slice_index_or values n no_term → Placed values self.old.bank.now self.old.count.now.terms t self.new.bank.now self.new.count.now.terms self.new.known result }
    {
        let place = intern_above(self.bank, self.count, node)?;
        remember(&mut self.known, n, place);
        Ok(place)
    }
}

impl<'a> Given<'a> {
    /// A sheet's terms over a row's vector, with names for the inputs.
    pub(crate) fn over(sheet: &'a Sheet, vector: &'a [u16; 6], inputs: &'a [u8]) -> Self
        ensures terms { map term_in result.terms.now ≡ (sheet_of sheet.now).terms }
        ensures vector { result.vector.now ≡ take (length (sheet_of sheet.now).readings) vector.now }
        ensures inputs { result.inputs.now ≡ inputs.now }
    {
        Given {
            terms: &sheet.parts.terms,
            vector: &vector[..readings_of(sheet)],
            inputs,
        }
    }

    /// The place of a reading's term in the row's vector; past its end, of the term that stands for none.
    pub(crate) fn reading_place(self, memory: &mut Memory<'_>, r: usize) -> Result<u16, TableFault>
        ensures lent { Lent memory.old memory.new }
        ensures place { Places self.entry memory.old (λ v values. slice_index_or v r no_term) memory.new result }
    {
        match self.vector.get(r) {
            Some(place) => Ok(*place),
            None => intern(memory.bank, memory.count, Node::Name(0)),
        }
    }

    // The place of term n, if n is below the given number, else of the term that stands for none.
    fn place_below(self, memory: &mut Memory<'_>, n: usize, below: usize) -> Result<u16, TableFault>
        ensures lent { Lent memory.old memory.new }
        ensures place { Places self.entry memory.old (λ v values. before no_term values n below) memory.new result }
    {
        if n >= below || n >= self.terms.len() {
            return intern(memory.bank, memory.count, Node::Name(0));
        }
        if let Some(place) = recall(&memory.known, n) {
            return Ok(place);
        }
        match self.terms[n].term {
            Term::Reading(r) => self.reading_place(memory, r as usize),
            Term::Input(i) => {
                let name = at_or(self.inputs, i as usize, 0);
                memory.add(n, Node::Name(name))
            }
            // A match of its own, so that the arms' numbers are read from the arguments alone.
            Term::Apply(f, args) => match args {
                Args::Zero => memory.add(n, Node::Constant(f)),
                Args::One(a) => {
                    let a = self.place_below(memory, a as usize, n)?;
                    memory.add(n, Node::Unary(f, a))
                }
                Args::Two(a, b) => {
                    let a = self.place_below(memory, a as usize, n)?;
                    let b = self.place_below(memory, b as usize, n)?;
                    memory.add(n, Node::Binary(f, a, b))
                }
                Args::Three(a, b, c) => {
                    let a = self.place_below(memory, a as usize, n)?;
                    let b = self.place_below(memory, b as usize, n)?;
                    let c = self.place_below(memory, c as usize, n)?;
                    memory.add(n, Node::Ternary(f, a, b, c))
                }
            },
        }
    }

    /// The place of term n.
    pub(crate) fn place_of(self, memory: &mut Memory<'_>, n: u8) -> Result<u16, TableFault>
        ensures lent { Lent memory.old memory.new }
        ensures place { Places self.entry memory.old (λ v values. slice_index_or values n no_term) memory.new result }
    {
        self.place_below(memory, n as usize, self.terms.len())
    }
}
