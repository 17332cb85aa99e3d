// The claims for frames that are written by parts, as contracts of functions that do nothing.
#![tactic(auto)]

ghost use Rattle.classic_parts_claims.specs.Joined.{PartsJoin};
ghost use Rattle.classic_parts_claims.specs.Stopping.{PartsStop};
ghost use Rattle.classic_parts_claims.specs.Premises.{PartFactsSuffice};
ghost use Rattle.classic_parts_claims.specs.Example.{PartsExample};

// However calls cut payload and output, what they write, joined, is the whole writer's frame.
pub fn parts_join()
    ensures { PartsJoin }
{}

// A call fills its output unless the frame ends or it needs a payload byte not offered.
pub fn parts_stop()
    ensures { PartsStop }
{}

// The facts of docs/FORMATS.md are all that the two claims ask for.
pub fn facts_suffice()
    ensures { PartFactsSuffice }
{}

// Calls with every byte and state written out, and the first claim on them.
pub fn parts_example()
    ensures { PartsExample }
{}
