// The claim that packets of different streams may come in either order. Its words are in specs/; these functions do nothing.
#![tactic(auto)]

ghost use Rattle.ble_order_claims.specs.Instance.{Computed, OneStream};
ghost use Rattle.ble_order_claims.specs.Lanes.{HandedAll, EitherOrder, PartsApart};

// Two packets whose stream fields differ get the same answers and leave the same slots, buffer and answer buffers in either order.
pub fn either_order()
    ensures { HandedAll × EitherOrder }
{}

// Runs within different parts of the buffer may be written in either order.
pub fn parts_apart()
    ensures { PartsApart }
{}

// Four pairs by computation: a packet refused by 10, an ACK, two refused by 15 and 14, and a packet of no stream.
pub fn instance_computed()
    ensures { Computed }
{}

// Two packets of one stream, of different ids, may not.
pub fn one_stream_in_order()
    ensures { OneStream }
{}
