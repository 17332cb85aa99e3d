// The claims about the judge of a sender, as contracts of functions that do nothing. Their words are in specs/.
#![tactic(auto)]

ghost use Rattle.capture_reader.specs.Captured.{CapturesHold, CapturesOnly};
ghost use Rattle.capture_judge_claims.specs.Lawful.{WritableAll};
ghost use Rattle.capture_judge_claims.specs.Right.{CaptureIsRight};
ghost use Rattle.capture_judge_claims.specs.Inside.{OpenIsInside};
ghost use Rattle.capture_judge_claims.specs.Example.{RowsHold, JudgedByHand};

// Of every capture: lawful, open, or the place of the length of the first packet after which no continuation could be lawful.
// A transaction is any of the ranges of docs/FORMATS.md.
pub fn capture_is_right()
    ensures { CaptureIsRight × WritableAll }
{}

// What a capture is: from that of packets of 1 to 65,535 bytes these packets can be read, and from no other bytes.
pub fn captures_hold_packets()
    ensures { CapturesHold × CapturesOnly }
{}

// Packets that are not lawful but could be continued lawfully are those that end inside a transaction.
pub fn open_is_inside()
    ensures { OpenIsInside }
{}

// Inputs of the program with every byte written out; one of them, with ACKs and another stream between, by its transactions too.
pub fn worked_inputs()
    ensures { RowsHold × JudgedByHand }
{}
