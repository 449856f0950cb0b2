//! The laws that make cutting and folding safe. Each function does nothing; its contract is the law.

ghost use Rattle.forms.specs.Examples.{Examples};
ghost use Rattle.forms.specs.Laws.{BranchCovers, CandidateCovers, CandidateShaped, CountedForm, FirstRowCovers, FittingCovers, FormCovers, ImpossibleBranch, OneForm, Rules, SafetyByCases, StartsCovered};
ghost use Rattle.sheet.specs.View.{sheet_of};

use plant::Model;
use sheet::Sheet;

/// A configuration that a row covers goes, with any inputs, through exactly one branch, and that branch's
/// candidate covers the next configuration.
pub fn branch_covers()
    ensures { BranchCovers }
{}

/// Where a configuration that a row covers goes through a branch, the branch's candidate covers the next one.
pub fn candidate_covers()
    ensures { CandidateCovers }
{}

/// A branch whose candidate's conditions are impossible is entered by no configuration that the row covers.
pub fn impossible_branch()
    ensures { ImpossibleBranch }
{}

/// Under every meaning, the form covers all that its candidate covers.
pub fn form_covers()
    ensures { FormCovers }
{}

/// Where a renaming fits, the older row covers all that the form covers.
pub fn fitting_covers()
    ensures { FittingCovers }
{}

/// A form is safe exactly where no case of the claims with a false invariant is possible; where one is, a meaning
/// and a configuration that the form covers show the invariant false.
pub fn safety_by_cases()
    ensures { SafetyByCases }
{}

/// Row 0 has a term for each reading and covers every start on every plant.
pub fn first_row_covers()
    ensures { FirstRowCovers }
{}

/// The same for any model: what holds of every plant holds of what a model means.
pub fn first_row_covers_model<M: Model>(_sheet: &Sheet, _model: &M)
    ensures { StartsCovered (sheet_of _sheet.now) (M.meaning _model.now) }
{}

/// A candidate has a term for each reading.
pub fn candidate_shaped()
    ensures { CandidateShaped }
{}

/// A candidate has exactly one form, or wants names: nothing in a form is higher than the height, it has at most 16 conditions, and
/// their names stand in its vector.
pub fn one_form()
    ensures { OneForm }
{}

/// With the terms counted, building a form comes to one outcome, and what it makes is the form.
pub fn counted_form()
    ensures { CountedForm }
{}

/// A new name is the lowest that is free, and the way down to a cut ends at height 1.
pub fn cutting_rules()
    ensures { Rules }
{}

/// A worked cut and three worked merges.
pub fn worked_examples()
    ensures { Examples }
{}
