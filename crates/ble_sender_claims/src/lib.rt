// The claim for the writer of packets, as the contract of a function that does nothing.
#![tactic(auto)]

ghost use Rattle.ble_sender_claims.specs.Calls.{TakesAll, CallsGiveAll};

// Calls of the writer, place after place, give all packets of a message of the ranges of docs/FORMATS.md.
pub fn calls_give_all()
    ensures { TakesAll × CallsGiveAll }
{}
