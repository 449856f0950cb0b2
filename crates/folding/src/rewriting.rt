//! Terms of the bank changed throughout, by recursion on falling places.
ghost use Rattle.std.specs.Prelude.{◌≡◌, ℕ, ◌<◌, ◌≤◌, length, IfOk, MatchResult, Some, slice_index, slice_set};
ghost use Rattle.terms.specs.Bank.{Bank, Fit, term_at, term_of};
ghost use Rattle.folding.specs.Viewing.{Bank-prop};
ghost use Rattle.folding.specs.Rewriting.{arg, renamed_name, stopped, is_spared, Suits, Suits-prop, Known, Known-prop, Adding, PlacesChanged, ConditionsChanged, NoRoom, side_places};
ghost use Rattle.rows.specs.Records.{Between};

use crate::change::Change;
use fault::TableFault;
use terms::{Condition, Count, MOST_TERMS, Node, TermRecord, intern_above};

fn renamed_name(to: &[u8], node: Node) -> Option<Node>
    ensures { result ≡ renamed_name to.now node }
{
    match node {
        Node::Name(x) => Some(Node::Name(to.get(x as usize).copied().unwrap_or(0))),
        _ => None,
    }
}

/// The node that the change puts in the place of a term, where it looks no further down.
fn stop(change: &Change, place: u16, node: Node) -> Option<Node>
    ensures { result ≡ stopped change.now place node }
{
    match change {
        Change::Replace(old, name) => (place == *old).then_some(Node::Name(*name)),
        Change::Rename(to) => renamed_name(to, node),
    }
}

/// Whether the term at a place stays as it is, since what is replaced stands at a higher place and so not in it.
fn is_spared(change: &Change, place: u16) -> bool
    ensures { result ≡ is_spared change.now place }
{
    match change {
        Change::Replace(old, _) => place < *old,
        Change::Rename(_) => false,
    }
}

/// A change on its way through a lent bank, in memory of fixed size, since nothing is allocated. What a place became is
/// remembered, so that each term is visited once, however often it is shared.
#[derive(Drop)]
pub(crate) struct Rewriting<'a> {
    pub(crate) bank: &'a mut [TermRecord],
    pub(crate) count: &'a mut Count,
    pub(crate) change: &'a Change,
    pub(crate) known: [Option<u16>; MOST_TERMS],
    ghost is_bank: { Bank bank.now count.now.terms } by { Bank-prop bank.now count.now.terms },
    ghost long: { 512 ≤ length bank.now },
    ghost suits: { Suits count.now.terms change.now } by { Suits-prop count.now.terms change.now },
    ghost is_known: { Known bank.now count.now.terms change.now known } by { Known-prop bank.now count.now.terms change.now known },
}

// Each method keeps the references to the bank, the count and the change, so that who lent them learns what became of them.
// That a place is in the bank is said in each call, since a type of places would have to name its bank.
impl Rewriting<'_> {
    /// The place of the term of `node`, which may be that of `place` itself; added where it is new.
    fn add(&mut self, place: u16, node: Node) -> Result<u16, TableFault>
        requires inside { place < self.old.count.now.terms }
        requires fit { Fit self.old.count.now.terms node }
        ensures adding { Adding self.old.bank.now self.old.count.now.terms (term_of (term_at self.old.bank.now) node) self.new.bank.now self.new.count.now.terms result }
        ensures lent { (self.new.bank.ghost_name ≡ self.old.bank.ghost_name) × (self.new.count.ghost_name ≡ self.old.count.ghost_name) }
        ensures change { self.new.change.now ≡ self.old.change.now }
        ensures known { self.new.known ≡ self.old.known }
    {
        let old = self.bank[place as usize].node;
        if old == node {
            return Ok(place);
        }
        intern_above(self.bank, self.count, node)
    }

    /// Adds the term of `node`, and remembers it as what `place` became.
    fn settle(&mut self, place: u16, node: Node) -> Result<u16, TableFault>
        requires inside { place < self.old.count.now.terms }
        requires fit { Fit self.old.count.now.terms node }
        requires became { term_of (term_at self.old.bank.now) node ≡ arg self.old.bank.now self.old.change.now place }
        ensures adding { Adding self.old.bank.now self.old.count.now.terms (arg self.old.bank.now self.old.change.now place) self.new.bank.now self.new.count.now.terms result }
        ensures lent { (self.new.bank.ghost_name ≡ self.old.bank.ghost_name) × (self.new.count.ghost_name ≡ self.old.count.ghost_name) }
        ensures change { self.new.change.now ≡ self.old.change.now }
        ensures known { IfOk result (λ p. self.new.known ≡ slice_set self.old.known place (Some p)) }
    {
        let became = self.add(place, node)?;
        self.known[place as usize] = Some(became);
        Ok(became)
    }

    /// The place of what the change makes of the term at `place`, added with its subterms where they are new.
    fn rewrite(&mut self, place: u16) -> Result<u16, TableFault>
        requires inside { place < self.old.count.now.terms }
        ensures adding { Adding self.old.bank.now self.old.count.now.terms (arg self.old.bank.now self.old.change.now place) self.new.bank.now self.new.count.now.terms result }
        ensures lent { (self.new.bank.ghost_name ≡ self.old.bank.ghost_name) × (self.new.count.ghost_name ≡ self.old.count.ghost_name) }
        ensures change { self.new.change.now ≡ self.old.change.now }
    {
        if is_spared(self.change, place) {
            return Ok(place);
        }
        if let Some(became) = self.known[place as usize] {
            return Ok(became);
        }
        let node = self.bank[place as usize].node;
        if let Some(new) = stop(self.change, place, node) {
            return self.settle(place, new);
        }
        match node {
            Node::Name(_) | Node::Constant(_) => self.settle(place, node),
            Node::Unary(f, a) => {
                let a = self.rewrite(a)?;
                self.settle(place, Node::Unary(f, a))
            }
            Node::Binary(f, a, b) => {
                let a = self.rewrite(a)?;
                let b = self.rewrite(b)?;
                self.settle(place, Node::Binary(f, a, b))
            }
            Node::Ternary(f, a, b, c) => {
                let a = self.rewrite(a)?;
                let b = self.rewrite(b)?;
                let c = self.rewrite(c)?;
                self.settle(place, Node::Ternary(f, a, b, c))
            }
        }
    }

    /// Changes the terms at these places.
    pub(crate) fn rewrite_places(&mut self, places: &mut [u16]) -> Result<(), TableFault>
        requires { (k : ℕ) → k < length places.old → slice_index places.old k < self.old.count.now.terms }
        ensures changed { MatchResult result (λ _. PlacesChanged self.old.bank.now self.old.count.now.terms self.old.change.now places.old places.new self.new.bank.now self.new.count.now.terms) (λ e. NoRoom self.old.bank.now self.old.count.now.terms self.old.change.now places.old self.new.bank.now self.new.count.now.terms e) }
        ensures lent { (self.new.bank.ghost_name ≡ self.old.bank.ghost_name) × (self.new.count.ghost_name ≡ self.old.count.ghost_name) }
        ensures change { self.new.change.now ≡ self.old.change.now }
    {
        for place in places.iter_mut() {
            *place = self.rewrite(*place)?;
        }
        Ok(())
    }

    /// Changes the terms of these conditions.
    pub(crate) fn rewrite_conditions(
        &mut self,
        conditions: &mut [Condition],
    ) -> Result<(), TableFault>
        requires { Between self.old.count.now.terms conditions.old (length conditions.old) }
        ensures changed { MatchResult result (λ _. ConditionsChanged self.old.bank.now self.old.count.now.terms self.old.change.now conditions.old conditions.new self.new.bank.now self.new.count.now.terms) (λ e. NoRoom self.old.bank.now self.old.count.now.terms self.old.change.now (side_places conditions.old) self.new.bank.now self.new.count.now.terms e) }
        ensures lent { (self.new.bank.ghost_name ≡ self.old.bank.ghost_name) × (self.new.count.ghost_name ≡ self.old.count.ghost_name) }
        ensures change { self.new.change.now ≡ self.old.change.now }
    {
        for condition in conditions.iter_mut() {
            let left = self.rewrite(condition.left)?;
            let right = self.rewrite(condition.right)?;
            *condition = Condition {
                left,
                right,
                sign: condition.sign,
            };
        }
        Ok(())
    }
}
