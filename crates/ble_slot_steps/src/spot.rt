// The slot of a packet among its stream's.
ghost use Rattle.std.specs.Prelude.{◌≡◌, cond, None, Some};
ghost use Rattle.ble_slot.specs.Slot.{is_idle};
ghost use Rattle.ble_slot_steps.specs.Step.{spot_where, open_spot, first_spot};

use ble_slot::Slot;

// The spot of the first test that holds.
fn first_of(a: bool, b: bool, c: bool, d: bool) -> Option<usize>
    ensures { result ≡ cond a (Some 0) (cond b (Some 1) (cond c (Some 2) (cond d (Some 3) None))) }
{
    if a {
        return Some(0);
    }
    if b {
        return Some(1);
    }
    if c {
        return Some(2);
    }
    if d {
        return Some(3);
    }
    None
}

// Where an id is open, test by test (see `find_idle`).
pub fn find_open(lane: [Slot; 4], id: u8) -> Option<usize>
    ensures { result ≡ open_spot lane id }
{
    if lane[0].is_open(id) {
        return Some(0);
    }
    if lane[1].is_open(id) {
        return Some(1);
    }
    if lane[2].is_open(id) {
        return Some(2);
    }
    if lane[3].is_open(id) {
        return Some(3);
    }
    None
}

// The lowest idle slot. Not `iter().position`: the check by itself found no proof that it is `spot_where`.
fn find_idle(lane: [Slot; 4]) -> Option<usize>
    ensures { result ≡ spot_where is_idle lane }
{
    let a = lane[0].is_idle();
    let b = lane[1].is_idle();
    let c = lane[2].is_idle();
    let d = lane[3].is_idle();
    first_of(a, b, c, d)
}

// Where an id is open, or else the lowest idle slot.
pub fn find_first(lane: [Slot; 4], id: u8) -> Option<usize>
    ensures { result ≡ first_spot lane id }
{
    find_open(lane, id).or_else(|| find_idle(lane))
}
