//! Two vectors walked side by side: which name goes to which.
ghost use Rattle.std.specs.Prelude.{◌≡◌, ℕ, ◌<◌, ◌≤◌, length, Some, None, MatchOption, slice_index, slice_index_or};
ghost use Rattle.folding.specs.Matched.{sends};
ghost use Rattle.folding.specs.Pairing.{Narrowed, Pictured, Renames, RenamesEach, Respects, Stronger, Walkable};

use crate::renaming::Renaming;
use crate::view::View;
use terms::{MOST_TERMS, Node};

/// Binds name `x` to name `y`, or compares where it is bound already.
fn bind(to: &mut [Option<u8>], x: u8, y: u8) -> bool
    requires inside { x < length to.old }
    requires small { y < 32 }
    requires named { (k v : ℕ) → slice_index_or to.old k None ≡ Some v → v < 32 }
    ensures narrowed { Narrowed to.old to.new (λ f. f x ≡ y) result }
    ensures stronger { Stronger to.old to.new }
    ensures named { (k v : ℕ) → slice_index_or to.new k None ≡ Some v → v < 32 }
{
    *to[x as usize].get_or_insert(y) == y
}

/// The renaming with these bindings; a name that is not bound becomes name 0.
fn renaming_of(bound: &[Option<u8>; 32]) -> Renaming
    requires { (x y : ℕ) → slice_index_or bound.now x None ≡ Some y → y < 32 }
    ensures respects { Respects (sends result) bound.now }
    ensures names { (x : ℕ) → sends result x < 32 }
{
    Renaming {
        to: bound.map(|name| name.unwrap_or(0)),
    }
}

// What is paired stays outside the view: a struct of both would have to promise that the view doesn't change. It is two
// arrays, since `bind` takes the bindings alone.
impl View<'_> {
    /// Pairs the terms at two places, and with them their arguments, each older place once.
    #[cycle(pair_all_pair_nodes_pair_places)]
    fn pair_places(
        &self,
        older: u16,
        newer: u16,
        image: &mut [Option<u16>],
        to: &mut [Option<u8>],
    ) -> bool
        requires walkable { Walkable self.now.records.now self.now.count.terms image.old to.old }
        requires older { older < self.now.count.terms }
        requires newer { newer < self.now.count.terms }
        ensures narrowed { Narrowed to.old to.new (Renames self.now.records.now older newer) result }
        ensures pictured { Pictured self.now.records.now self.now.count.terms image.new to.new }
    {
        if let Some(place) = image[older as usize] {
            return place == newer;
        }
        let paired = self.pair_nodes(older, newer, image, to);
        if paired {
            image[older as usize] = Some(newer);
        }
        paired
    }

    /// Pairs the nodes at two places: one symbol, and their arguments paired, or a name bound to a name.
    #[cycle(pair_all_pair_nodes_pair_places)]
    fn pair_nodes(
        &self,
        older: u16,
        newer: u16,
        image: &mut [Option<u16>],
        to: &mut [Option<u8>],
    ) -> bool
        requires walkable { Walkable self.now.records.now self.now.count.terms image.old to.old }
        requires older { older < self.now.count.terms }
        requires newer { newer < self.now.count.terms }
        ensures narrowed { Narrowed to.old to.new (Renames self.now.records.now older newer) result }
        ensures pictured { Pictured self.now.records.now self.now.count.terms image.new to.new }
    {
        let nodes = (
            self.records[older as usize].node,
            self.records[newer as usize].node,
        );
        match nodes {
            (Node::Name(x), Node::Name(y)) => bind(to, x, y),
            (Node::Constant(f), Node::Constant(g)) => f == g,
            (Node::Unary(f, a), Node::Unary(g, d)) => f == g
                && self.pair_all(older, &[a], &[d], image, to),
            (Node::Binary(f, a, b), Node::Binary(g, d, e)) => f == g
                && self.pair_all(older, &[a, b], &[d, e], image, to),
            (Node::Ternary(f, a, b, c), Node::Ternary(g, d, e, h)) => f == g
                && self.pair_all(older, &[a, b, c], &[d, e, h], image, to),
            _ => false,
        }
    }

    /// Pairs terms one by one; the older ones stand below the place `below`.
    #[cycle(pair_all_pair_nodes_pair_places)]
    fn pair_all(
        &self,
        below: u16,
        older: &[u16],
        newer: &[u16],
        image: &mut [Option<u16>],
        to: &mut [Option<u8>],
    ) -> bool
        requires walkable { Walkable self.now.records.now self.now.count.terms image.old to.old }
        requires below { below ≤ self.now.count.terms }
        requires same { length older.now ≡ length newer.now }
        requires older { (k : ℕ) → k < length older.now → slice_index older.now k < below }
        requires newer { (k : ℕ) → k < length newer.now → slice_index newer.now k < self.now.count.terms }
        ensures narrowed { Narrowed to.old to.new (RenamesEach self.now.records.now older.now newer.now (length older.now)) result }
        ensures pictured { Pictured self.now.records.now self.now.count.terms image.new to.new }
    {
        for (old, new) in older.iter().zip(newer) {
            if !self.pair_places(*old, *new, image, to) {
                return false;
            }
        }
        true
    }

    /// A renaming that makes each of the older terms, by their places, the one across from it.
    pub(crate) fn match_terms(&self, older: &[u16], newer: &[u16]) -> Option<Renaming>
        requires same { length older.now ≡ length newer.now }
        requires older { (k : ℕ) → k < length older.now → slice_index older.now k < self.now.count.terms }
        requires newer { (k : ℕ) → k < length newer.now → slice_index newer.now k < self.now.count.terms }
        ensures { MatchOption result ((f : ℕ → ℕ) → RenamesEach self.now.records.now older.now newer.now (length older.now) f → ⊥) (λ found. RenamesEach self.now.records.now older.now newer.now (length older.now) (sends found) × ((x : ℕ) → sends found x < 32)) }
    {
        let mut image = [None; MOST_TERMS];
        let mut bound = [None; 32];
        self.pair_all(self.count.terms, older, newer, &mut image, &mut bound)
            .then(|| renaming_of(&bound))
    }
}
