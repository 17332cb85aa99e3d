// The fast path over a payload: what writes bytes at once promises only that nothing is lost by it.
ghost use Rattle.std.specs.Prelude.{◌≡◌, true, ◌+◌, ◌≤◌, ◌<◌, length};
ghost use Rattle.classic_parts.specs.State.{missing, in_payload};
ghost use Rattle.classic_parts.specs.FastPath.{body, PartOnward};

use crate::state::{PartProgress, Stage};
use classic_frame::checksum::{add_all, add_byte};
use classic_frame::mark::{Kind, Mark, code_for, is_mark};
use wire::bytes::{byte_at, smaller};
use wire::logic::both;
use wire::scan::copy_clear;

// The state, the payload bytes taken and the bytes written so far.
#[derive(Drop)]
pub struct PartPassed {
    pub next: PartProgress,
    pub taken: usize,
    pub at: usize,
}

impl PartProgress {
    // The state in the payload with n more bytes taken.
    fn advanced(self, n: usize, sum: u16) -> Self
        requires { n ≤ missing self }
        ensures { (result ≡ body self.sequence self.total (self.taken + n) sum) × (self.sum < 65536) }
    {
        PartProgress {
            sequence: self.sequence,
            total: self.total,
            taken: self.taken + n,
            sum,
            stage: Stage::Payload,
            pending: Kind::Plain,
        }
    }

    // The payload bytes that may be copied at once: no more than are offered, have room and are missing.
    fn run_limit(self, offered: usize, room: usize) -> usize
        ensures { (result ≤ offered) × (result ≤ room) × (result ≤ missing self) }
    {
        smaller(smaller(offered, room), self.missing())
    }

    // Writes the plain payload bytes from a place on, as far as there is room for them.
    fn take_plain(self, payload: &[u8], taken: usize, out: &mut [u8], at: usize) -> PartPassed
        requires taken_in_bounds { taken ≤ length payload.now }
        requires at_in_bounds { at ≤ length out.old }
        requires self_value { in_payload self ≡ true }
        ensures { (PartOnward payload.now self out.old taken at result.next out.new
            result.taken result.at)
            × (in_payload result.next ≡ true) }
    {
        let end = taken + self.run_limit(payload.len() - taken, out.len() - at);
        let n = copy_clear(out, at, &payload[taken..end], Mark::START, Mark::ESCAPE);
        let after = taken + n;
        let sum = add_all(self.sum, &payload[taken..after]);
        let next = self.advanced(n, sum);
        PartPassed {
            next,
            taken: after,
            at: at + n,
        }
    }

    // The same, where the next payload byte is no mark.
    fn take_run(self, payload: &[u8], taken: usize, out: &mut [u8], at: usize) -> PartPassed
        requires taken_in_bounds { taken ≤ length payload.now }
        requires at_in_bounds { at ≤ length out.old }
        requires self_value { in_payload self ≡ true }
        ensures { (PartOnward payload.now self out.old taken at result.next out.new
            result.taken result.at)
            × (in_payload result.next ≡ true) }
    {
        if is_mark(byte_at(payload, taken)) {
            return PartPassed {
                next: self,
                taken,
                at,
            };
        }
        self.take_plain(payload, taken, out, at)
    }

    // Writes F2 and the code of a mark at a place of the payload, where there is room for both.
    fn take_pair(self, payload: &[u8], taken: usize, out: &mut [u8], at: usize) -> PartPassed
        requires taken_in_bounds { taken ≤ length payload.now }
        requires at_in_bounds { at ≤ length out.old }
        requires self_value { in_payload self ≡ true }
        ensures { (PartOnward payload.now self out.old taken at result.next out.new
            result.taken result.at)
            × (in_payload result.next ≡ true) }
    {
        let b = byte_at(payload, taken);
        let fits = both(self.taken < self.total, 2 <= out.len() - at);
        if both(is_mark(b), fits) {
            out[at] = Mark::ESCAPE;
            out[at + 1] = code_for(b);
            let sum = add_byte(self.sum, b);
            PartPassed {
                next: self.advanced(1, sum),
                taken: taken + 1,
                at: at + 2,
            }
        } else {
            PartPassed {
                next: self,
                taken,
                at,
            }
        }
    }

    // Writes payload bytes, plain and escaped ones, up to what wants a decision of its own.
    fn take_body(self, payload: &[u8], taken: usize, out: &mut [u8], at: usize) -> PartPassed
        requires taken_in_bounds { taken ≤ length payload.now }
        requires at_in_bounds { at ≤ length out.old }
        requires self_value { in_payload self ≡ true }
        ensures { PartOnward payload.now self out.old taken at result.next out.new
            result.taken result.at }
    {
        let mut here = self;
        let mut got = taken;
        let mut place = at;
        loop {
            let run = here.take_run(payload, got, out, place);
            let end = run.at;
            let after = run.next;
            let pair = after.take_pair(payload, run.taken, out, end);
            here = pair.next;
            got = pair.taken;
            place = pair.at;
            if place == end {
                return PartPassed {
                    next: here,
                    taken: got,
                    at: place,
                };
            }
        }
    }

    // Writes bytes that need no decision of their own.
    pub fn pass(self, payload: &[u8], taken: usize, out: &mut [u8], at: usize) -> PartPassed
        requires taken_in_bounds { taken ≤ length payload.now }
        requires at_in_bounds { at ≤ length out.old }
        ensures { PartOnward payload.now self out.old taken at result.next out.new
            result.taken result.at }
    {
        if self.is_in_payload() {
            self.take_body(payload, taken, out, at)
        } else {
            PartPassed {
                next: self,
                taken,
                at,
            }
        }
    }
}
