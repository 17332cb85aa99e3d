// Reading a firmware message that was written gives back every number and the bytes of every string, and a writer takes what a reader tells. These functions do nothing: their contracts are the claims.
#![tactic(auto)]

ghost use Rattle.msg_firmware_claims.specs.RoundTrip.{NoFirmwareRefused, SegmentRoundTrip, ApplyRoundTrip, SegmentsToldTaken, AppliesToldTaken};
ghost use Rattle.msg_firmware_claims.specs.Premises.{SegmentsTaken, AppliesTaken, OneFirmwareOfEach};
ghost use Rattle.msg_firmware_claims.specs.Worked.{WorkedFirmware, ComponentsCounted};

// A writer or a reader that refuses with more than a number makes none of them true.
pub fn none_refused()
    ensures { NoFirmwareRefused }
{}

pub fn segment()
    ensures { SegmentRoundTrip }
{}

pub fn apply()
    ensures { ApplyRoundTrip }
{}

// Whatever a reader tells, the writer takes.
pub fn segments_told_taken()
    ensures { SegmentsToldTaken }
{}

pub fn applies_told_taken()
    ensures { AppliesToldTaken }
{}

// Each claim covers all that a writer takes by docs/FORMATS.md.
pub fn segments_taken()
    ensures { SegmentsTaken }
{}

pub fn applies_taken()
    ensures { AppliesTaken }
{}

// One message of each kind, by computation.
pub fn one_of_each()
    ensures { OneFirmwareOfEach }
{}

// The bytes worked by hand.
pub fn worked()
    ensures { WorkedFirmware }
{}

// As many components are told as there are.
pub fn components_counted()
    ensures { ComponentsCounted }
{}
