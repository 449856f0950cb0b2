//! Terms read from the front of a text into a bank.
ghost use Rattle.std.specs.Prelude.{◌≡◌, ◌<◌, ◌∷◌, ◌++◌, IfOk};
ghost use Rattle.terms.specs.Bank.{Bank, Fit, term_of, term_at, literal_of, Extends};
ghost use Rattle.closure.specs.Props.{Fit-prop};
ghost use Rattle.notation.specs.Written.{written, line};
ghost use Rattle.std.proofs.Props.{props};

use super::Unread;
use super::words::{after, number, sign};
use terms::{Condition, Count, MOST_TERMS, Node, TermRecord, intern_above};

/// A term that is deeper than this has more subterms than a bank holds.
const DEEPEST: u16 = 512;

/// A bank of the terms that are read, and the arity of each symbol in them.
#[derive(Drop)]
pub(crate) struct Reader {
    pub(crate) bank: [TermRecord; MOST_TERMS],
    pub(crate) count: Count,
    ghost terms: { Bank bank count.terms } by { Prim.hlevel (props, Fit-prop) },
    arities: [Option<u8>; 256],
}

// Each call says that the bank is extended, since what was read before is meant in the bank that it leaves.
impl Reader {
    /// Nothing is read.
    pub(crate) fn new() -> Self {
        Reader {
            bank: [TermRecord::BLANK; MOST_TERMS],
            count: Count { terms: 0 },
            arities: [None; 256],
        }
    }

    /// The place of a node's term in the bank.
    fn add(&mut self, node: Node) -> Result<u16, Unread>
        requires { Fit self.old.count.terms node }
        ensures extends { Extends self.old.bank self.old.count.terms self.new.bank self.new.count.terms }
        ensures term { IfOk result (λ i. (i < self.new.count.terms) × (term_at self.new.bank i ≡ term_of (term_at self.old.bank) node)) }
    {
        intern_above(&mut self.bank, &mut self.count, node).map_err(|_| Unread::TooManyTerms)
    }

    // Symbol and arity beside the node that has both, since each caller knows them.
    /// The term of a symbol over arguments that are read, with the text that follows it.
    fn finish<'t>(
        &mut self,
        rest: &'t [u8],
        node: Node,
        symbol: u8,
        arity: u8,
    ) -> Result<(u16, &'t [u8]), Unread>
        requires { Fit self.old.count.terms node }
        ensures extends { Extends self.old.bank self.old.count.terms self.new.bank self.new.count.terms }
        ensures term { IfOk result (λ p. (p.0 < self.new.count.terms) × (term_at self.new.bank p.0 ≡ term_of (term_at self.old.bank) node) × (p.1.now ≡ rest.now)) }
    {
        if self.arities[symbol as usize].is_some_and(|known| known != arity) {
            return Err(Unread::TwoArities);
        }
        self.arities[symbol as usize] = Some(arity);
        let place = self.add(node)?;
        Ok((place, rest))
    }

    /// What follows a name at the front of the text.
    fn name<'t>(&mut self, text: &'t [u8]) -> Result<(u16, &'t [u8]), Unread>
        ensures extends { Extends self.old.bank self.old.count.terms self.new.bank self.new.count.terms }
        ensures term { IfOk result (λ p. (p.0 < self.new.count.terms) × (120 ∷ text.now ≡ written (term_at self.new.bank p.0) ++ p.1.now)) }
    {
        let (x, rest) = number(text)
            .filter(|(x, _)| *x < 32)
            .ok_or(Unread::NoSuchName)?;
        let place = self.add(Node::Name(x))?;
        Ok((place, rest))
    }

    /// A term at the front of the text, at most `room` levels deep, and what follows it.
    fn term<'t>(&mut self, text: &'t [u8], room: u16) -> Result<(u16, &'t [u8]), Unread>
        ensures extends { Extends self.old.bank self.old.count.terms self.new.bank self.new.count.terms }
        ensures term { IfOk result (λ p. (p.0 < self.new.count.terms) × (text.now ≡ written (term_at self.new.bank p.0) ++ p.1.now)) }
    {
        if let Some(rest) = after(text, b'x') {
            return self.name(rest);
        }
        let rest = after(text, b's').ok_or(Unread::NoTerm)?;
        let (f, rest) = number(rest).ok_or(Unread::NoSuchSymbol)?;
        let Some(rest) = after(rest, b'(') else {
            return self.finish(rest, Node::Constant(f), f, 0);
        };
        let room = room.checked_sub(1).ok_or(Unread::TooManyTerms)?;
        let (a, rest) = self.term(rest, room)?;
        if let Some(rest) = after(rest, b')') {
            return self.finish(rest, Node::Unary(f, a), f, 1);
        }
        let rest = after(rest, b',').ok_or(Unread::NoArgumentEnd)?;
        let (b, rest) = self.term(rest, room)?;
        if let Some(rest) = after(rest, b')') {
            return self.finish(rest, Node::Binary(f, a, b), f, 2);
        }
        let rest = after(rest, b',').ok_or(Unread::NoArgumentEnd)?;
        let (c, rest) = self.term(rest, room)?;
        let rest = after(rest, b')').ok_or(Unread::NoArgumentEnd)?;
        self.finish(rest, Node::Ternary(f, a, b, c), f, 3)
    }

    /// A condition on a line of its own at the front of the text, and what follows the line.
    pub(crate) fn condition<'t>(&mut self, text: &'t [u8]) -> Result<(Condition, &'t [u8]), Unread>
        ensures extends { Extends self.old.bank self.old.count.terms self.new.bank self.new.count.terms }
        ensures line { IfOk result (λ p. (p.0.left < self.new.count.terms) × (p.0.right < self.new.count.terms) × (text.now ≡ line (literal_of self.new.bank p.0) ++ p.1.now)) }
    {
        let (left, rest) = self.term(text, DEEPEST)?;
        let (sign, rest) = sign(rest).ok_or(Unread::NoSign)?;
        let (right, rest) = self.term(rest, DEEPEST)?;
        let rest = after(rest, b'\n').ok_or(Unread::LineGoesOn)?;
        Ok((Condition { left, right, sign }, rest))
    }
}
