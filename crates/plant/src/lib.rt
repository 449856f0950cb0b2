//! Plant models: what the symbols of a sheet mean on one concrete plant.
//! The interface is the trait `Model`; `listed` and `affine` have the two models that are built in.
#![tactic(auto)]

ghost use Rattle.std.specs.Prelude.{◌≡◌, ℕ, List};
ghost use Rattle.plant.specs.Plant.{IsPlant};

pub mod affine;
pub mod listed;

/// An interpretation of the symbols, which a model keeps for as long as it lives.
///
/// A sheet asks for symbols below 32 at no to three values, and there a meaning is a value: that is the law.
/// `apply` takes other numbers and longer lists too, and answers what the meaning says there: each model's
/// definition says what that is. Where nothing can be asked, a meaning may be anything.
///
/// A layer over another model is a model too, by value or over a `&mut`. `lenders` names the loans that such
/// a layer holds, outermost first, and no call changes them: so who lent a model below a layer knows, after a
/// call through the layer, that the meaning of what comes back is the one that was lent.
pub trait Model {
    /// The value of each symbol number at each list of values.
    ghost meaning: { Self → ℕ → List ℕ → ℕ };

    /// The ghost names of the `&mut` references that the model holds.
    ghost lenders: { Self → List ℕ };

    /// Works out a symbol at values. It never refuses, and leaves the whole meaning as it was.
    fn apply(&mut self, symbol: u8, values: &[u32]) -> u32
        ensures answer { result ≡ meaning self.old symbol values.now }
        ensures kept { meaning self.new ≡ meaning self.old }
        ensures lent { lenders self.new ≡ lenders self.old };

    /// Every question is answered with a value.
    ghost plant: { (model : Self) → IsPlant (meaning model) };
}

/// A model means a plant, whichever it is.
pub fn means_a_plant<M: Model>(_model: &M)
    ensures { IsPlant (M.meaning _model.now) }
{}
