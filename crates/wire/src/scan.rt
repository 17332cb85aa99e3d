// The bytes of a run before the first that lies in a range: counted, or copied.
ghost use Rattle.std.specs.Prelude.{◌≡◌, List, true, ℕ, ◌+◌, ◌≤◌, length};
ghost use Rattle.std.proofs.lemmas.List.Edits.{sets};
ghost use Rattle.wire.specs.Scan.{in_range, any_in_range, Clear, Copied};

use crate::bytes::copy;

// Bytes that are tested and copied at once, while a run has as many left. Blocks pay on chips without vector instructions
// too: Cortex-M code takes fewer instructions a byte with them than byte by byte.
pub const BLOCK: usize = 16;

fn in_range(b: u8, first: u8, last: u8) -> bool
    ensures { result ≡ in_range first last b }
{
    if b < first { false } else { b <= last }
}

// Whether any byte lies in the range. The loop has no other exit, so that it becomes one vector test.
fn any_in_range(run: &[u8], first: u8, last: u8) -> bool
    ensures { result ≡ any_in_range first last run.now }
{
    let mut found = false;
    for b in run {
        if in_range(*b, first, last) {
            found = true;
        }
    }
    found
}

// A count of bytes, by whole blocks, before any byte in the range. Its place is counted by hand: a `for` over the number of the block
// divides, which nothing that a writer of varints calls may do (No. 10).
fn clear_blocks(run: &[u8], first: u8, last: u8) -> usize
    ensures { Clear first last run.now result }
{
    let mut i = 0;
    while BLOCK <= run.len() - i {
        let end = i + BLOCK;
        if any_in_range(&run[i..end], first, last) {
            return i;
        }
        i = end;
    }
    i
}

// The same byte by byte, once a count is known.
fn clear_from(run: &[u8], from: usize, first: u8, last: u8) -> usize
    requires { Clear first last run.now from }
    ensures { Clear first last run.now result }
{
    for i in from..run.len() {
        if in_range(run[i], first, last) {
            return i;
        }
    }
    run.len()
}

// A count of bytes before any byte in the range.
pub fn clear_run(run: &[u8], first: u8, last: u8) -> usize
    ensures { Clear first last run.now result }
{
    clear_from(run, clear_blocks(run, first, last), first, last)
}

// Copies a block by way of a local one: all of it is read before any is written, which takes one load and one store.
pub fn copy_block(out: &mut [u8], at: usize, run: &[u8])
    requires { (length run.now ≡ 16) × (at + length run.now ≤ length out.old) }
    ensures { out.new ≡ sets out.old at run.now }
{
    let mut block: [u8; BLOCK] = [0; BLOCK];
    copy(&mut block, 0, run);
    copy(out, at, &block);
}

// Copies byte by byte what stands before any byte in the range, and returns how much.
fn copy_bytes(out: &mut [u8], at: usize, run: &[u8], first: u8, last: u8) -> usize
    requires { at + length run.now ≤ length out.old }
    ensures { Copied first last run.now at out.old result out.new }
{
    for i in 0..run.len() {
        let b = run[i];
        if in_range(b, first, last) {
            return i;
        }
        out[at + i] = b;
    }
    run.len()
}

// The same from a place on in a run that has a byte in the range, so that its end need not be looked for. Its loop counts by hand: a `for`
// to the end of the run would look for it at each byte, and one over `from..` has no proof that it ends.
fn copy_until(out: &mut [u8], at: usize, run: &[u8], from: usize, first: u8, last: u8) -> usize
    requires run_in_bounds { at + length run.now ≤ length out.old }
    requires run_value { any_in_range first last run.now ≡ true }
    requires clear { Clear first last run.now from }
    ensures { (l : List ℕ) → Copied first last run.now at l from out.old → Copied first
        last run.now at l result out.new }
{
    let mut i = from;
    loop {
        let b = run[i];
        if in_range(b, first, last) {
            return i;
        }
        out[at + i] = b;
        i += 1;
    }
}

// Copies what stands before any byte in the range, and returns how much. Its place is counted by hand: with a `for` over the number of the
// block here and copy_from_slice in `copy`, writing a frame of 4,000 bytes took 1.46 times the instructions.
pub fn copy_clear(out: &mut [u8], at: usize, run: &[u8], first: u8, last: u8) -> usize
    requires { at + length run.now ≤ length out.old }
    ensures { Copied first last run.now at out.old result out.new }
{
    let mut i = 0;
    while BLOCK <= run.len() - i {
        let end = i + BLOCK;
        if any_in_range(&run[i..end], first, last) {
            return copy_until(out, at, &run[..end], i, first, last);
        }
        copy_block(out, at + i, &run[i..end]);
        i = end;
    }
    i + copy_bytes(out, at + i, &run[i..], first, last)
}
