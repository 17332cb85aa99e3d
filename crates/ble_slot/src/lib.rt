// A slot: idle, or open with id, last sequence, whether an ACK is wanted, total and count held; and the law of a row of twelve.
#![tactic(auto)]

pub mod answer;

ghost use Rattle.std.specs.Prelude.{◌≡◌, not, ◌&&◌, [], ◌∷◌, ◌+◌, ◌*◌, ◌<◌};
ghost use Rattle.wire.specs.declared.stream.Stream.TheVariants.{Control, Ota, Alexa};
ghost use Rattle.ble_slot.specs.Slot.{opens, wants, idle, open_law, idle_law, is_open, is_idle, lawful_slot, any_open, lane_law, lane_of, lawful};

use ble_packet::header;
use wire::bytes;
use wire::bytes::pair;
use wire::logic::{both, either};
use wire::stream::Stream;

// As C lays it out, in eight bytes (`pito_slot` of include/pitokaenge.h). A flag is 0 or 1.
#[repr(C)]
#[derive(Clone, Copy)]
pub struct Slot {
    pub opened: u8,
    pub id: u8,
    pub sequence: u8,
    pub wanted: u8,
    pub total: u16,
    pub held: u16,
}

// The flag that is set.
const SET: u8 = 1;

// What is fixed in the first four bytes of an open slot, read as one number: its flag, which is 1,
// and the upper bits of id, sequence and wish, which are 0.
const FIXED: usize = 4277203199;

const OPEN: usize = 1;

// What the third, fourth, fifth and seventh byte of a number count.
const THIRD: usize = 65536;

const FOURTH: usize = 16777216;

const FIFTH: usize = 4294967296;

const SEVENTH: usize = 281474976710656;

// A count of a slot as a larger number, and back.
pub fn wide(n: u16) -> usize
    ensures { (result ≡ n) × (result < 65536) }
{
    n as usize
}

pub fn narrow(n: usize) -> u16
    requires { n < 65536 }
    ensures { result ≡ n }
{
    n as u16
}

impl Slot {
    pub fn idle() -> Self
        ensures { result ≡ idle }
    {
        Slot {
            opened: 0,
            id: 0,
            sequence: 0,
            wanted: 0,
            total: 0,
            held: 0,
        }
    }

    pub fn opens(self) -> bool
        ensures { result ≡ opens self }
    {
        self.opened == SET
    }

    pub fn wants(self) -> bool
        ensures { result ≡ wants self }
    {
        self.wanted == SET
    }

    // Its first four bytes as one number.
    fn head(self) -> usize
        ensures { (result ≡ self.id * 256 + self.opened + self.sequence * 65536 + self.wanted * 16777216)
            × (result < 4294967296) }
    {
        let three = pair(self.id, self.opened) + bytes::wide(self.sequence) * THIRD;
        three + bytes::wide(self.wanted) * FOURTH
    }

    // Whether it is open and lawful: flag, id, sequence and wish by one comparison in place of four.
    fn open_law(self, limit: usize) -> bool
        ensures { result ≡ (opens self && open_law limit self) }
    {
        let total = wide(self.total);
        let held = wide(self.held);
        let fixed = self.head() & FIXED;
        let begun = both(1 <= held, held < total);
        both(fixed == OPEN, both(total <= limit, begun))
    }

    // Its six numbers are 0 where the one number that they make is: one comparison in place of six.
    fn idle_law(self) -> bool
        ensures { result ≡ idle_law self }
    {
        let six = self.head() + wide(self.total) * FIFTH;
        six + wide(self.held) * SEVENTH == 0
    }

    // Whether a transaction of that id is open.
    pub fn is_open(self, id: u8) -> bool
        ensures { result ≡ is_open id self }
    {
        pair(self.id, self.opened) == pair(id, SET)
    }

    pub fn is_idle(self) -> bool
        ensures { result ≡ is_idle self }
    {
        !self.opens()
    }

    pub fn is_lawful(self, limit: usize) -> bool
        ensures { result ≡ lawful_slot limit self }
    {
        self.idle_law() || self.open_law(limit)
    }

    // Whether none of three slots is open with the id of one that is.
    fn stands_alone(self, a: Slot, b: Slot, c: Slot) -> bool
        ensures { result ≡ not (opens self && any_open self.id (a ∷ b ∷ c ∷ [])) }
    {
        let later = either(b.is_open(self.id), c.is_open(self.id));
        !(self.opens() && either(a.is_open(self.id), later))
    }
}

// Whether the slots of a stream are lawful, each by itself.
fn each_lawful(limit: usize, a: Slot, b: Slot, c: Slot, d: Slot) -> bool
    ensures { result
        ≡ (lawful_slot limit a && (lawful_slot limit b && (lawful_slot limit c && lawful_slot limit d))) }
{
    a.is_lawful(limit) && b.is_lawful(limit) && c.is_lawful(limit) && d.is_lawful(limit)
}

// Whether no two open slots of a stream have one id.
fn are_distinct(a: Slot, b: Slot, c: Slot, d: Slot) -> bool
    ensures { result
        ≡ (not (opens a && any_open a.id (b ∷ c ∷ d ∷ []))
        && (not (opens b && any_open b.id (c ∷ d ∷ idle ∷ [])) && not (opens c && any_open c.id (d ∷ idle ∷ idle ∷ [])))) }
{
    let none = Slot::idle();
    let first = a.stands_alone(b, c, d);
    let second = b.stands_alone(c, d, none);
    let third = c.stands_alone(d, none, none);
    both(first, both(second, third))
}

// Whether the slots of a stream are idle and lawful.
fn are_idle(a: Slot, b: Slot, c: Slot, d: Slot) -> bool
    ensures { result ≡ (idle_law a && (idle_law b && (idle_law c && idle_law d))) }
{
    let last = both(c.idle_law(), d.idle_law());
    both(a.idle_law(), both(b.idle_law(), last))
}

// Whether the slots of a stream are lawful. Four idle ones are, at one look.
fn lane_lawful(limit: usize, lane: [Slot; 4]) -> bool
    ensures { result ≡ lane_law limit lane }
{
    let [a, b, c, d] = lane;
    if are_idle(a, b, c, d) {
        return true;
    }
    each_lawful(limit, a, b, c, d) && are_distinct(a, b, c, d)
}

// The slots of a stream in a row of twelve.
pub fn lane_of(slots: [Slot; 12], stream: Stream) -> [Slot; 4]
    ensures { result ≡ lane_of stream slots }
{
    match stream {
        Stream::Control => [slots[0], slots[1], slots[2], slots[3]],
        Stream::Ota => [slots[4], slots[5], slots[6], slots[7]],
        Stream::Alexa => [slots[8], slots[9], slots[10], slots[11]],
    }
}

// Whether a row is lawful for a limit: the slots of each stream are.
pub fn are_lawful(limit: usize, slots: [Slot; 12]) -> bool
    ensures { result ≡ lawful limit slots }
{
    lane_lawful(limit, lane_of(slots, Stream::Control))
        && (lane_lawful(limit, lane_of(slots, Stream::Ota))
            && lane_lawful(limit, lane_of(slots, Stream::Alexa)))
}
