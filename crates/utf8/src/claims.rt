// What the check finds. These functions do nothing: their contracts are the claims.
ghost use Rattle.utf8.specs.Claims.{FindsFirstBad, OnlyOneFirstBad, WholeExactlyIfWellFormed, WorkedStrings};

pub fn finds_first_bad()
    ensures { FindsFirstBad }
{}

pub fn only_one_first_bad()
    ensures { OnlyOneFirstBad }
{}

pub fn whole_exactly_if_well_formed()
    ensures { WholeExactlyIfWellFormed }
{}

// Strings worked out by hand, by computation.
pub fn worked_strings()
    ensures { WorkedStrings }
{}
