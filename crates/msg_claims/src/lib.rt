// Reading what a writer wrote gives back every value and the bytes of every part. These functions do nothing: their contracts are the claims.
#![tactic(auto)]

ghost use Rattle.msg_claims.specs.RoundTrip.{NoneRefused, EnvelopeRoundTrip, ResponseRoundTrip, InformationRoundTrip, FeaturesRoundTrip};
ghost use Rattle.msg_claims.specs.Premises.{EnvelopesTaken, ResponsesTaken, InformationTaken, FeaturesTaken, OneOfEach};
ghost use Rattle.msg_claims.specs.Worked.{WorkedInformation};

// A writer or a reader that refuses makes none of them true.
pub fn none_refused()
    ensures { NoneRefused }
{}

pub fn envelope()
    ensures { EnvelopeRoundTrip }
{}

pub fn response()
    ensures { ResponseRoundTrip }
{}

pub fn information()
    ensures { InformationRoundTrip }
{}

pub fn features()
    ensures { FeaturesRoundTrip }
{}

// Each claim covers all that a writer takes by docs/FORMATS.md.
pub fn envelopes_taken()
    ensures { EnvelopesTaken }
{}

pub fn responses_taken()
    ensures { ResponsesTaken }
{}

pub fn information_taken()
    ensures { InformationTaken }
{}

pub fn features_taken()
    ensures { FeaturesTaken }
{}

// One message of each kind, by computation.
pub fn one_of_each()
    ensures { OneOfEach }
{}

// Device information worked by hand.
pub fn worked()
    ensures { WorkedInformation }
{}
