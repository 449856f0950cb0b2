//! The marked cases: what three small sheets come to, one cut, two conditions and two merges, proved as one list.
#![tactic(auto)]

ghost use Rattle.marked.specs.Cases.{MarkedCases};

/// Every marked case comes out as it must.
pub fn marked_cases()
    ensures { MarkedCases }
{}
