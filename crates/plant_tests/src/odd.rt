//! A model that means no value at numbers that no symbol has.
ghost use Rattle.std.specs.Prelude.{[]};
ghost use Rattle.plant.specs.Plant.{IsPlant};
ghost use Rattle.plant_tests.specs.Odd.{odd, odd_plant};

use plant::{Model as PlantModel, means_a_plant};

/// Answers 0 to every question. From symbol number 256 on, which no `u8` is, its meaning is past every value.
#[derive(Clone, Copy, Debug)]
pub struct Odd;

impl PlantModel for Odd {
    ghost meaning = { λ _. odd };

    ghost lenders = { λ _. [] };

    fn apply(&mut self, _symbol: u8, _values: &[u32]) -> u32 {
        0
    }

    ghost plant = { λ _. odd_plant };
}

/// It is a plant as any other model.
pub fn odd_is_a_plant(model: &Odd)
    ensures { IsPlant odd }
{
    means_a_plant(model);
}
