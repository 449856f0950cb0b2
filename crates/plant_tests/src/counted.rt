//! A layer over any model that counts the questions put to it: a model with the meaning of the one below.
ghost use Rattle.std.specs.Prelude.{◌≡◌, ◌+◌, ◌-◌, ◌^◌, min, ◌∷◌};

use plant::Model as PlantModel;

/// The count after one more question; the largest count stays.
fn one_more(asked: u64) -> u64
    ensures { result ≡ min (asked + 1) (2 ^ 64 - 1) }
{
    asked.saturating_add(1)
}

/// Counts over a model that it owns.
#[derive(Drop)]
pub struct Counted<M> {
    pub below: M,
    pub asked: u64,
}

impl<M: PlantModel> PlantModel for Counted<M> {
    ghost meaning = { λ layer. M.meaning layer.below };

    ghost lenders = { λ layer. M.lenders layer.below };

    fn apply(&mut self, symbol: u8, values: &[u32]) -> u32
        ensures answer { result ≡ M.meaning self.old.below symbol values.now }
        ensures kept { M.meaning self.new.below ≡ M.meaning self.old.below }
        ensures lent { M.lenders self.new.below ≡ M.lenders self.old.below }
        ensures counted { self.new.asked ≡ min (self.old.asked + 1) (2 ^ 64 - 1) }
    {
        self.asked = one_more(self.asked);
        self.below.apply(symbol, values)
    }

    ghost plant = { λ layer. M.plant layer.below };
}

/// Counts over a model that is lent.
// Apart from `Counted`, though it counts alike, since a loan is one of its lenders, and what it owns is none.
#[derive(Drop)]
pub struct CountedOver<'a, M> {
    pub below: &'a mut M,
    pub asked: u64,
}

impl<'a, M: PlantModel> PlantModel for CountedOver<'a, M> {
    ghost meaning = { λ layer. M.meaning layer.below.now };

    ghost lenders = { λ layer. layer.below.ghost_name ∷ M.lenders layer.below.now };

    fn apply(&mut self, symbol: u8, values: &[u32]) -> u32 {
        self.asked = one_more(self.asked);
        self.below.apply(symbol, values)
    }

    ghost plant = { λ layer. M.plant layer.below.now };
}
