// The claims for Classic, as contracts of functions that do nothing.
#![tactic(auto)]

ghost use Rattle.classic_claims.specs.Recovery.{DamageEnds, FrameReturns};
ghost use Rattle.classic_claims.specs.Premises.{FactsSuffice};
ghost use Rattle.classic_claims.specs.Example.{DamageExample};

// The frames decided in the closing part are its undamaged ones, from every lawful state, after any bytes and however the calls cut them.
pub fn damage_ends()
    ensures { DamageEnds }
{}

// A frame of our writer comes back from the extractor.
pub fn frame_returns()
    ensures { FrameReturns }
{}

// The facts of docs/FORMATS.md are all that the two claims ask for.
pub fn facts_suffice()
    ensures { FactsSuffice }
{}

// The first claim on bytes that are written out.
pub fn damage_example()
    ensures { DamageExample }
{}
