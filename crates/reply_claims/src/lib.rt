// The claims of the reply to the handshake. Their words are in specs/; these functions do nothing.
#![tactic(auto)]

ghost use Rattle.reply_claims.specs.Cut.{JoinedCutApart};
ghost use Rattle.reply_claims.specs.Answers.{AnswersAll, ReplyWritten, ReplyArrives};
ghost use Rattle.reply_claims.specs.ReadAgain.{ReplyReads};
ghost use Rattle.reply_claims.specs.Untouched.{NothingWritten};
ghost use Rattle.reply_claims.specs.Instance.{OneReplyArrives, ByHand};

// Cut apart by their own headers, joined packets are the writer's packets.
pub fn joined_cut_apart()
    ensures { JoinedCutApart }
{}

// Each question of the ranges of docs/FORMATS.md is answered.
pub fn reply_written()
    ensures { AnswersAll × ReplyWritten }
{}

// Read again, it is an envelope of the same command with the response that was asked for.
pub fn reply_reads()
    ensures { ReplyReads }
{}

// A refusal and a response leave the output as it was.
pub fn nothing_written()
    ensures { NothingWritten }
{}

// A receiver of the link's limit gives exactly the reply.
pub fn reply_arrives()
    ensures { ReplyArrives }
{}

// The same once, by computation.
pub fn instance_arrives()
    ensures { OneReplyArrives }
{}

// Replies worked by hand, each with the whole output afterwards.
pub fn worked_replies()
    ensures { ByHand }
{}
