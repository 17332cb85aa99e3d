// What the programs for the comparison with other makers' tools answer: one byte, 0 or the number of the refusal, and after 0 the
// message as our writers write it.
#![tactic(auto)]

ghost use Rattle.std.specs.Prelude.{◌≤◌, length};
ghost use Rattle.proto_writer.specs.Message.{wrote_size};

use std::io::Stdout;
use wire::refusal::Numbered;

// The answers for a kind of message that is not known, and for an input that is too long.
pub const NO_KIND: u8 = 1;

pub const TOO_LONG: u8 = 2;

pub fn refuse(to: Stdout, number: u8) {
    let _ = to.write_all(&[number]);
}

// What was written.
pub fn show<E: Numbered>(to: Stdout, wrote: Result<usize, E>, out: &[u8])
    requires { wrote_size wrote ≤ length out.now }
{
    match wrote {
        Err(why) => refuse(to, why.number()),
        Ok(size) => {
            let _ = to.write_all(&[0u8]);
            let _ = to.write_all(&out[..size]);
        }
    }
}
