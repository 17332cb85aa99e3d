// The extractor by hand, as the contract of a function that does nothing.
#![tactic(auto)]

ghost use Rattle.worked_extractor.specs.ExtractorCases.{ExtractorCases};

// Every row of the extractor's table holds.
pub fn extractor_cases()
    ensures { ExtractorCases }
{}
