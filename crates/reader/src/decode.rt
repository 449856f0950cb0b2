//! From the bytes of a body to what they say. Only bytes that a record can be written as say anything.
ghost use Rattle.std.specs.Prelude.{◌≡◌, slice_index};
ghost use Rattle.reader.specs.Decode.{bit_of, start_of, args_of, term_of, formula_of, choice_of};

use sheet::{Args, Choice, Formula, Start, Term};

// Functions and no `TryFrom`, since neither the trait nor the types are of this crate.
pub(crate) fn decode_bit(start: u8) -> Option<bool>
    ensures { result ≡ bit_of start }
{
    match start {
        0 => Some(false),
        1 => Some(true),
        _ => None,
    }
}

pub(crate) fn decode_start(way: u8, number: u8) -> Option<Start>
    ensures { result ≡ start_of way number }
{
    match way {
        0 => Some(Start::Name(number)),
        1 => Some(Start::Constant(number)),
        _ => None,
    }
}

fn decode_args(arity: u8, args: [u8; 3]) -> Option<Args>
    ensures { result ≡ args_of arity (slice_index args 0) (slice_index args 1) (slice_index args 2) }
{
    match (arity, args) {
        (0, [0, 0, 0]) => Some(Args::Zero),
        (1, [a, 0, 0]) => Some(Args::One(a)),
        (2, [a, b, 0]) => Some(Args::Two(a, b)),
        (3, [a, b, c]) => Some(Args::Three(a, b, c)),
        _ => None,
    }
}

pub(crate) fn decode_term(body: [u8; 5], arity: u8) -> Option<Term>
    ensures { result ≡ term_of (slice_index body 0) (slice_index body 1) (slice_index body 2) (slice_index body 3) (slice_index body 4) arity }
{
    match body {
        [0, reading, 0, 0, 0] => Some(Term::Reading(reading)),
        [1, input, 0, 0, 0] => Some(Term::Input(input)),
        [2, symbol, a, b, c] => decode_args(arity, [a, b, c]).map(|args| Term::Apply(symbol, args)),
        _ => None,
    }
}

pub(crate) fn decode_formula(body: [u8; 3]) -> Option<Formula>
    ensures { result ≡ formula_of (slice_index body 0) (slice_index body 1) (slice_index body 2) }
{
    match body {
        [0, 0, 0] => Some(Formula::True),
        [1, bit, 0] => Some(Formula::Bit(bit)),
        [2, question, 0] => Some(Formula::Question(question)),
        [3, claim, 0] => Some(Formula::Claim(claim)),
        [4, a, 0] => Some(Formula::Not(a)),
        [5, a, b] => Some(Formula::And(a, b)),
        [6, a, b] => Some(Formula::Or(a, b)),
        _ => None,
    }
}

pub(crate) fn decode_choice(body: [u8; 4]) -> Option<Choice>
    ensures { result ≡ choice_of (slice_index body 0) (slice_index body 1) (slice_index body 2) (slice_index body 3) }
{
    match body {
        [0, term, 0, 0] => Some(Choice::Term(term)),
        [1, formula, a, b] => Some(Choice::If(formula, a, b)),
        _ => None,
    }
}
