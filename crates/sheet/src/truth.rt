//! The truth of a formula and the term of a choice, by recursion on falling numbers. What is known
//! already is not worked out again, so however often operands are shared, each is worked out once.
ghost use Rattle.std.specs.Prelude.{◌≡◌, ℕ, ◌<◌, false, [], length, get_or, slice_index, slice_index_or};
ghost use Rattle.sheet.specs.Truth.{truths, chosen};
ghost use Rattle.sheet.specs.Memo.{Remembers, before, operands_of, connected, grounded, truths_from};
ghost use Rattle.sheet.specs.View.{sheet_of};

use crate::memo::{recall, remember};
use crate::sheet::Sheet;
use crate::syntax::{Choice, Formula, FormulaEntry};

// How many values are remembered: as many as there can be formulas or choices, in memory of fixed size, since nothing is
// allocated.
const MOST: usize = 64;

// The formulas that a formula is made of.
fn operands(formula: Formula) -> Option<(u8, u8)>
    ensures { result ≡ operands_of formula }
{
    match formula {
        Formula::Not(a) => Some((a, a)),
        Formula::And(a, b) | Formula::Or(a, b) => Some((a, b)),
        _ => None,
    }
}

fn connect(formula: Formula, left: bool, right: bool) -> bool
    ensures { result ≡ connected formula left right }
{
    match formula {
        Formula::Not(_) => !left,
        Formula::And(_, _) => left && right,
        Formula::Or(_, _) => left || right,
        _ => false,
    }
}

// The formulas, and what they are built on.
#[derive(Clone, Copy)]
struct Given<'a> {
    formulas: &'a [FormulaEntry],
    bits: &'a [bool],
    questions: &'a [bool],
    claims: &'a [bool],
}

impl Given<'_> {
    fn ground(&self, formula: Formula) -> bool
        ensures { result ≡ grounded self.now.bits.now self.now.questions.now self.now.claims.now formula }
    {
        match formula {
            Formula::True => true,
            Formula::Bit(b) => self.bits.get(b as usize).copied().unwrap_or(false),
            Formula::Question(q) => self.questions.get(q as usize).copied().unwrap_or(false),
            Formula::Claim(c) => self.claims.get(c as usize).copied().unwrap_or(false),
            _ => false,
        }
    }
}

// The truths of the formulas that are known already.
#[derive(Drop)]
struct Truths<'a> {
    given: Given<'a>,
    known: [Option<bool>; MOST],
    ghost right: { Remembers false (truths_from given) known },
}

impl<'a> Truths<'a> {
    fn new(given: Given<'a>) -> Truths<'a>
        ensures { result.given ≡ given.entry }
    {
        Truths {
            given,
            known: [None; MOST],
        }
    }

    // The truth of formula n, if n is below the given number, else false.
    fn below(&mut self, n: usize, below: usize) -> bool
        ensures value { result ≡ before false (truths_from self.old.given) n below }
        ensures given { self.new.given ≡ self.old.given }
    {
        if n >= below {
            return false;
        }
        let Some(entry) = self.given.formulas.get(n) else {
            return false;
        };
        if let Some(value) = recall(&self.known, n) {
            return value;
        }
        let formula = entry.formula;
        let value = match operands(formula) {
            Some((a, b)) => {
                let left = self.below(a as usize, n);
                let right = self.below(b as usize, n);
                connect(formula, left, right)
            }
            None => self.given.ground(formula),
        };
        remember(&mut self.known, n, value);
        value
    }

    // The truth of formula n.
    fn of(&mut self, n: usize) -> bool
        ensures value { result ≡ slice_index_or (truths_from self.old.given) n false }
        ensures given { self.new.given ≡ self.old.given }
    {
        self.below(n, self.given.formulas.len())
    }
}

// The terms of the choices that are known already, by the truth of the formulas. Apart from `Truths`,
// since a formula asks for both its operands, and a choice only for the one that is taken.
#[derive(Drop)]
struct Terms<'a> {
    choices: &'a [Choice],
    truths: &'a [bool],
    known: [Option<u8>; MOST],
    ghost right: { Remembers 0 (chosen (λ f. get_or truths.now f false) choices.now) known },
}

impl<'a> Terms<'a> {
    fn new(choices: &'a [Choice], truths: &'a [bool]) -> Terms<'a>
        ensures choices { result.choices.now ≡ choices.now }
        ensures truths { result.truths.now ≡ truths.now }
    {
        Terms {
            choices,
            truths,
            known: [None; MOST],
        }
    }

    // The term of choice n, if n is below the given number, else 0.
    fn below(&mut self, n: usize, below: usize) -> u8
        ensures value { result ≡ before 0 (chosen (λ f. get_or self.old.truths.now f false) self.old.choices.now) n below }
        ensures choices { self.new.choices ≡ self.old.choices }
        ensures truths { self.new.truths ≡ self.old.truths }
    {
        if n >= below {
            return 0;
        }
        let Some(choice) = self.choices.get(n) else {
            return 0;
        };
        if let Some(value) = recall(&self.known, n) {
            return value;
        }
        let value = match *choice {
            Choice::Term(t) => t,
            Choice::If(f, a, b) => {
                let test = self.truths.get(f as usize).copied().unwrap_or(false);
                let next = if test { a } else { b };
                self.below(next as usize, n)
            }
        };
        remember(&mut self.known, n, value);
        value
    }

    // The term of choice n.
    fn of(&mut self, n: usize) -> u8
        ensures value { result ≡ slice_index (chosen (λ f. get_or self.old.truths.now f false) self.old.choices.now) n }
        ensures choices { self.new.choices ≡ self.old.choices }
        ensures truths { self.new.truths ≡ self.old.truths }
    {
        self.below(n, self.choices.len())
    }
}

/// The truth of each formula, and the term that each choice comes to.
#[derive(Clone, Copy, Debug, PartialEq, Eq)]
pub struct Resolved {
    pub truths: [bool; MOST],
    pub chosen: [u8; MOST],
}

impl Sheet {
    // What is known of the formulas' truths before any is worked out. Bits, questions and claims come apart in the calls,
    // as callers have them.
    fn unknown<'a>(
        &'a self,
        bits: &'a [bool],
        questions: &'a [bool],
        claims: &'a [bool],
    ) -> Truths<'a>
        ensures { truths_from result.given ≡ truths bits.now questions.now claims.now (sheet_of self.now).formulas }
    {
        Truths::new(Given {
            formulas: self.parts.formulas.as_slice(),
            bits,
            questions,
            claims,
        })
    }

    /// The truth of a formula, from the bits and the answers to the questions and the claims. Past the
    /// end everything is false.
    pub fn truth(&self, formula: u8, bits: &[bool], questions: &[bool], claims: &[bool]) -> bool
        ensures { result ≡ slice_index_or (truths bits.now questions.now claims.now (sheet_of self.now).formulas) formula false }
    {
        self.unknown(bits, questions, claims).of(formula as usize)
    }

    /// The truth of every formula that has a place in `out`, each worked out once.
    pub fn truths(&self, bits: &[bool], questions: &[bool], claims: &[bool], out: &mut [bool])
        ensures { (k : ℕ) → k < length out.old → slice_index_or out.new k false ≡ slice_index_or (truths bits.now questions.now claims.now (sheet_of self.now).formulas) k false }
    {
        let mut known = self.unknown(bits, questions, claims);
        for (n, slot) in out.iter_mut().enumerate() {
            *slot = known.of(n);
        }
    }

    /// The term that a choice comes to, by the truth of the formulas. Past the end it is 0.
    pub fn term_of_choice(&self, choice: u8, truths: &[bool]) -> u8
        ensures { result ≡ slice_index (chosen (λ f. get_or truths.now f false) (sheet_of self.now).choices) choice }
    {
        let choices = self.parts.choices.as_slice();
        Terms::new(choices, truths).of(choice as usize)
    }

    /// The terms that all choices with a place in `out` come to, each worked out once.
    pub fn terms_of_choices(&self, truths: &[bool], out: &mut [u8])
        ensures { (k : ℕ) → k < length out.old → slice_index out.new k ≡ slice_index (chosen (λ f. get_or truths.now f false) (sheet_of self.now).choices) k }
    {
        let choices = self.parts.choices.as_slice();
        let mut known = Terms::new(choices, truths);
        for (n, slot) in out.iter_mut().enumerate() {
            *slot = known.of(n);
        }
    }

    /// What holds on a branch: the truth of each formula and the term of each choice, from the bits and
    /// the answers to the questions. Past the end formulas are false, and choices are 0.
    pub fn resolve(&self, bits: &[bool], answers: &[bool]) -> Resolved
        ensures truths { (f : ℕ) → slice_index_or result.truths f false ≡ slice_index_or (truths bits.now answers.now [] (sheet_of self.now).formulas) f false }
        ensures chosen { (k : ℕ) → slice_index result.chosen k ≡ slice_index (chosen (λ f. get_or (truths bits.now answers.now [] (sheet_of self.now).formulas) f false) (sheet_of self.now).choices) k }
    {
        let mut truths = [false; MOST];
        self.truths(bits, answers, &[], &mut truths);
        let mut chosen = [0; MOST];
        self.terms_of_choices(&truths, &mut chosen);
        Resolved { truths, chosen }
    }
}
