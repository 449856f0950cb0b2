//! Clients of the interface alone, and what they know of a model below a layer.
ghost use Rattle.std.specs.Prelude.{◌≡◌, ◌+◌, ◌%◌, ◌^◌};

use crate::counted::{Counted, CountedOver};
use plant::Model;

/// Puts one question twice: the answers are the same for every model.
pub fn asked_twice<M: Model>(model: &mut M, symbol: u8, values: &[u32]) -> (u32, u32)
    ensures first { result.0 ≡ M.meaning model.old symbol values.now }
    ensures second { result.1 ≡ result.0 }
    ensures kept { M.meaning model.new ≡ M.meaning model.old }
    ensures lent { M.lenders model.new ≡ M.lenders model.old }
{
    let a = model.apply(symbol, values);
    let b = model.apply(symbol, values);
    (a, b)
}

/// The same through a layer that owns the model.
// This and those below have near the same body: each makes other layers, and knows another thing of the
// model afterwards.
pub fn through_owned<M: Model + Drop>(model: M, symbol: u8, values: &[u32]) -> (u32, u32)
    ensures { (result.0 ≡ M.meaning model symbol values.now) × (result.1 ≡ result.0) }
{
    let mut layer = Counted {
        below: model,
        asked: 0,
    };
    asked_twice(&mut layer, symbol, values)
}

/// The same through a layer over a loan: the model that was lent keeps its meaning.
pub fn through_lent<M: Model>(model: &mut M, symbol: u8, values: &[u32]) -> (u32, u32)
    ensures answers { (result.0 ≡ M.meaning model.old symbol values.now) × (result.1 ≡ result.0) }
    ensures kept { M.meaning model.new ≡ M.meaning model.old }
    ensures lent { M.lenders model.new ≡ M.lenders model.old }
{
    let mut layer = CountedOver {
        below: model,
        asked: 0,
    };
    asked_twice(&mut layer, symbol, values)
}

/// The same through two layers over loans. Each layer is made in a function of its own.
pub fn through_two<M: Model>(model: &mut M, symbol: u8, values: &[u32]) -> (u32, u32)
    ensures answers { (result.0 ≡ M.meaning model.old symbol values.now) × (result.1 ≡ result.0) }
    ensures kept { M.meaning model.new ≡ M.meaning model.old }
    ensures lent { M.lenders model.new ≡ M.lenders model.old }
{
    let mut low = CountedOver {
        below: model,
        asked: 0,
    };
    through_lent(&mut low, symbol, values)
}

/// The answers through a layer that owns a layer over a loan. Of the model nothing is known afterwards.
pub fn through_pile<M: Model>(model: &mut M, symbol: u8, values: &[u32]) -> (u32, u32)
    ensures { (result.0 ≡ M.meaning model.old symbol values.now) × (result.1 ≡ result.0) }
{
    let low = CountedOver {
        below: model,
        asked: 0,
    };
    let mut top = Counted {
        below: low,
        asked: 0,
    };
    asked_twice(&mut top, symbol, values)
}
