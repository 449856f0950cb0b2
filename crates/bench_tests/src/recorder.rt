//! A model of one value that writes down which symbols it is asked for.
ghost use Rattle.std.specs.Prelude.{[]};
ghost use Rattle.plant.specs.Plant.{IsValue};

use plant::Model as PlantModel;

/// Answers the same value to every question, and keeps the symbols.
#[derive(Drop)]
pub struct Recorder {
    pub value: u32,
    pub asked: Vec<u8>,
    ghost small: { IsValue value },
}

impl PlantModel for Recorder {
    ghost meaning = { λ r _ _. r.value };

    ghost lenders = { λ _. [] };

    fn apply(&mut self, symbol: u8, _values: &[u32]) -> u32 {
        // A model never refuses: where memory is wanting, the symbol is left out.
        let _ = self.asked.push(symbol);
        self.value
    }

    ghost plant = { λ r _ _ _. r.small };
}
