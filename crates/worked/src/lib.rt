// The worked cases of docs/FORMATS.md, as contracts of functions that do nothing.
#![tactic(auto)]

ghost use Rattle.worked.specs.Cases.{WorkedCases};
ghost use Rattle.worked.specs.LimitEnds.{LimitEnds};

// Every row of the table of worked cases holds.
pub fn worked_cases()
    ensures { WorkedCases }
{}

// States with a limit of 1 to 65,535 are taken, and no other.
pub fn limit_ends()
    ensures { LimitEnds }
{}
