// The claims of Low Energy, from the writer to the receiver. Their words are in specs/; these functions do nothing.
#![tactic(auto)]

ghost use Rattle.ble_claims.specs.AcknowledgementsReturn.{TakesEveryAck, AcknowledgementsReturn};
ghost use Rattle.ble_claims.specs.Answering.{AnsweredOnly};
ghost use Rattle.ble_claims.specs.Delivery.{AnswerableAll, SlotEnough, MessagesArrive, RoundTrip, MessageAsked};
ghost use Rattle.ble_claims.specs.Instance.{ArrivalInstance};

// Each ACK and NACK of the ranges of docs/FORMATS.md is read as it was written.
pub fn acknowledgements_return()
    ensures { TakesEveryAck × AcknowledgementsReturn }
{}

// 1 comes first, then 15, then 14, and each of them leaves everything; an ACK is written where one is wanted, and no other answer buffer is touched.
pub fn answered_only()
    ensures { AnsweredOnly }
{}

// A message whose packets all come, in order, and for whose first one there is a slot, is given at the last of them, whatever comes
// before, after, and of other streams and other ids between.
pub fn messages_arrive()
    ensures { AnswerableAll × SlotEnough × MessagesArrive }
{}

// The same with nothing before or between: what was written returns.
pub fn round_trip()
    ensures { RoundTrip }
{}

// Both ask for the message, whatever packets the writer gives.
pub fn message_asked()
    ensures { MessageAsked }
{}

// P4 of docs/FORMATS.md as an instance, by computation.
pub fn instance_arrives()
    ensures { ArrivalInstance }
{}
