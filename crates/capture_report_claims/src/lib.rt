// The claims about reports, as contracts of functions that do nothing. Their words are in specs/.
#![tactic(auto)]

ghost use Rattle.capture_report_claims.specs.Captures.{LeftOpenIsOpen, OpenIsAdded, ReportsBalance, OrderIsFree, FitsAll, FitsOnly};
ghost use Rattle.capture_report_claims.specs.Added.{CapturesAdd, AnyCapture, BytesCount, NoneElsewhere};
ghost use Rattle.capture_report_claims.specs.Sent.{MessageCosts};
ghost use Rattle.capture_report_claims.specs.Worked.{RowsAdd};
ghost use Rattle.capture_report_claims.specs.Orders.{TwoOrders};

// Each capture is added, or refused by the first line that holds, in the rules' own numbers: a call that refuses more is no report.
pub fn captures_add()
    ensures { CapturesAdd × AnyCapture }
{}

// The bytes of a stream are those of its packets, whatever is told of them; a stream that has none costs nothing.
pub fn bytes_count()
    ensures { BytesCount × NoneElsewhere }
{}

// One message, as the writer sends it, is one first packet, one transaction finished and its payload bytes.
pub fn message_costs()
    ensures { MessageCosts }
{}

// What is left open, by the packets and their answers, is open in the row.
pub fn left_open_is_open()
    ensures { LeftOpenIsOpen × OpenIsAdded }
{}

// From an empty report, over any captures: first packets accepted are finished, replaced, dropped or left open.
pub fn reports_balance()
    ensures { ReportsBalance }
{}

// Where no capture is refused by 19, none is in any order, and the report is the same. 19 is for a number of more than 64 bits, any of
// the 21, and for nothing else.
pub fn order_is_free()
    ensures { OrderIsFree × FitsAll × FitsOnly }
{}

// Captures with every byte written out, and all that adding them leaves.
pub fn worked_captures()
    ensures { RowsAdd }
{}

// Five captures in two orders, two of them refused and one there twice; and two whose order counts.
pub fn two_orders()
    ensures { TwoOrders }
{}
