//! The rules that go by what stands inside a term or a formula.
ghost use Rattle.std.specs.Prelude.{◌≡◌, ◌+◌, true, not, ◌&&◌, ◌||◌, ltb, max, map, if◌then◌else◌, Some, None};
ghost use Rattle.sheet.specs.Stored.{term_info_in, formula_info_in};
ghost use Rattle.sheet.specs.Rules.{arg_count, args_info, both, formula_info, term_info, keeps, contains_input, contains_question, contains_claim};
ghost use Rattle.reader.specs.Drafts.{draft_of};

use crate::draft::Draft;
use sheet::{Args, Choice, Equation, Formula, FormulaInfo, Record, Start, Term, TermInfo};

fn arg_count(args: Args) -> u8
    ensures { result ≡ arg_count args }
{
    match args {
        Args::Zero => 0,
        Args::One(_) => 1,
        Args::Two(_, _) => 2,
        Args::Three(_, _, _) => 3,
    }
}

// What stands in either of two terms.
fn joined(x: TermInfo, y: TermInfo) -> TermInfo
    ensures { result ≡ record { height = max x.height y.height; has_input = x.has_input || y.has_input } }
{
    TermInfo {
        height: x.height.max(y.height),
        has_input: x.has_input || y.has_input,
    }
}

// One higher than what stands below, if that is not too high.
fn one_higher(below: TermInfo) -> Option<TermInfo>
    ensures { result ≡ (if ltb (below.height + 1) 5 then Some (record { height = below.height + 1; has_input = below.has_input }) else None) }
{
    (below.height < 4).then(|| TermInfo {
        height: below.height + 1,
        ..below
    })
}

fn either(x: FormulaInfo, y: FormulaInfo) -> FormulaInfo
    ensures { result ≡ both x y }
{
    FormulaInfo {
        has_question: x.has_question || y.has_question,
        has_claim: x.has_claim || y.has_claim,
    }
}

impl Draft {
    // What is known of a symbol over these terms, unless that is higher than a term may be.
    fn args_info(&self, args: Args) -> Option<TermInfo>
        ensures { result ≡ (if ltb (args_info (map term_info_in self.now.parts.terms.items) args).height 5 then Some (args_info (map term_info_in self.now.parts.terms.items) args) else None) }
    {
        match args {
            Args::Zero => Some(TermInfo::BLANK),
            Args::One(a) => one_higher(self.term_info(a)),
            Args::Two(a, b) => one_higher(joined(self.term_info(a), self.term_info(b))),
            Args::Three(a, b, c) => {
                let rest = joined(self.term_info(b), self.term_info(c));
                one_higher(joined(self.term_info(a), rest))
            }
        }
    }

    pub(crate) fn info_of_term(&self, term: Term) -> TermInfo
        requires { keeps (draft_of self.now) (Record.Term term) ≡ true }
        ensures { result ≡ term_info (map term_info_in self.now.parts.terms.items) term }
    {
        match term {
            Term::Reading(_) => TermInfo::BLANK,
            Term::Input(_) => TermInfo {
                has_input: true,
                ..TermInfo::BLANK
            },
            Term::Apply(_, args) => self.args_info(args).unwrap(),
        }
    }

    pub(crate) fn info_of_formula(&self, formula: Formula) -> FormulaInfo
        ensures { result ≡ formula_info (map formula_info_in self.now.parts.formulas.items) formula }
    {
        match formula {
            Formula::True | Formula::Bit(_) => FormulaInfo::BLANK,
            Formula::Question(_) => FormulaInfo {
                has_question: true,
                ..FormulaInfo::BLANK
            },
            Formula::Claim(_) => FormulaInfo {
                has_claim: true,
                ..FormulaInfo::BLANK
            },
            Formula::Not(a) => self.formula_info(a),
            Formula::And(a, b) => either(self.formula_info(a), self.formula_info(b)),
            Formula::Or(a, b) => either(self.formula_info(a), self.formula_info(b)),
        }
    }

    fn has_claim(&self, formula: u8) -> bool
        ensures { result ≡ contains_claim (draft_of self.now) formula }
    {
        self.formula_info(formula).has_claim
    }

    fn has_question(&self, formula: u8) -> bool
        ensures { result ≡ contains_question (draft_of self.now) formula }
    {
        self.formula_info(formula).has_question
    }

    fn has_input(&self, term: u8) -> bool
        ensures { result ≡ contains_input (draft_of self.now) term }
    {
        self.term_info(term).has_input
    }

    fn symbol_fits(&self, symbol: u8, args: Args) -> bool
        ensures { result ≡ keeps (draft_of self.now) (Record.Term (Term.Apply symbol args)) }
    {
        let fits = self.arity(symbol) == arg_count(args);
        let low = self.args_info(args).is_some();
        fits && low
    }

    // Whether the record, which names only things that are there, keeps the rest of the rules.
    pub(crate) fn keeps(&self, what: Record) -> bool
        ensures { result ≡ keeps (draft_of self.now) what }
    {
        match what {
            Record::Symbol(arity) => arity < 4,
            Record::Reading(Start::Name(number)) => number < 8,
            Record::Reading(Start::Constant(symbol)) => self.arity(symbol) == 0,
            Record::Term(Term::Apply(symbol, args)) => self.symbol_fits(symbol, args),
            Record::Claim(Equation { left, right }) => !self.has_input(left)
                && !self.has_input(right),
            Record::Choice(Choice::If(formula, _, _)) => !self.has_claim(formula),
            Record::NextBit(_, formula) => !self.has_claim(formula),
            Record::Invariant(formula) => !self.has_question(formula),
            Record::Bound(bound) => bound < 5,
            _ => true,
        }
    }
}
