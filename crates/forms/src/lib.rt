//! Rows, candidates, forms and matching: the symbolic states of the checker.
//! `specs/Rows.antt`, `specs/Candidate.antt`, `specs/Form.antt` and `specs/Matching.antt` say what they are, and
//! `specs/Laws.antt` what they are for.
#![tactic(auto)]

mod laws;

pub use laws::{
    branch_covers, candidate_covers, candidate_shaped, counted_form, cutting_rules,
    first_row_covers, first_row_covers_model, fitting_covers, form_covers, impossible_branch,
    one_form, safety_by_cases, worked_examples,
};
