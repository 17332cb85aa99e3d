// Calls of the library worked out: rows that refuse each small change of a definition that a caller can see (tools/mutate).
#![tactic(auto)]

ghost use Rattle.worked_calls.specs.Classic.{ClassicCalls};
ghost use Rattle.worked_calls.specs.Receiving.{ReceivingCalls};
ghost use Rattle.worked_calls.specs.Sending.{SendingCalls};
ghost use Rattle.worked_calls.specs.Packets.{PacketCalls};
ghost use Rattle.worked_calls.specs.Outbox.{OutboxCalls};
ghost use Rattle.worked_calls.specs.Texts.{TextCalls};
ghost use Rattle.worked_calls.specs.Messages.{MessageCalls};
ghost use Rattle.worked_calls.specs.Firmware.{FirmwareCalls};
ghost use Rattle.worked_calls.specs.Reply.{ReplyCalls};
ghost use Rattle.worked_calls.specs.Captures.{CaptureCalls};
ghost use Rattle.worked_calls.specs.Whys.{WhyCalls};
ghost use Rattle.worked_calls.specs.Report.{ReportCalls};
ghost use Rattle.worked_calls.specs.NextPackets.{NextPackets};
ghost use Rattle.worked_calls.specs.Inputs.{InputAnswers};
ghost use Rattle.worked_calls.specs.Payloads.{PayloadLimits};
ghost use Rattle.worked_calls.specs.Toolkit.{ToolkitEnds};

// The extractor and the frame writers, called from C.
pub fn classic_calls()
    ensures { ClassicCalls }
{}

// A packet accepted, called from C.
pub fn receiving_calls()
    ensures { ReceivingCalls }
{}

// A receiver opened, packets and ACKs written, called from C.
pub fn sending_calls()
    ensures { SendingCalls }
{}

// One packet read, called from C.
pub fn packet_calls()
    ensures { PacketCalls }
{}

// The outbox, called from C.
pub fn outbox_calls()
    ensures { OutboxCalls }
{}

// Texts, called from C.
pub fn text_calls()
    ensures { TextCalls }
{}

// Control messages, called from C.
pub fn message_calls()
    ensures { MessageCalls }
{}

// Firmware messages and single fields, called from C.
pub fn firmware_calls()
    ensures { FirmwareCalls }
{}

// The reply to a control transaction, called from C.
pub fn reply_calls()
    ensures { ReplyCalls }
{}

// A capture judged, called from C.
pub fn capture_calls()
    ensures { CaptureCalls }
{}

// Why a capture is not lawful, called from C.
pub fn why_calls()
    ensures { WhyCalls }
{}

// A capture added to a report, called from C.
pub fn report_calls()
    ensures { ReportCalls }
{}

// What the program why says is expected.
pub fn next_packets()
    ensures { NextPackets }
{}

// The input of the program lawful.
pub fn input_answers()
    ensures { InputAnswers }
{}

// The longest payload that a record of an outbox takes.
pub fn payload_limits()
    ensures { PayloadLimits }
{}

// The toolkit's functions at the ends of their ranges.
pub fn toolkit_ends()
    ensures { ToolkitEnds }
{}
