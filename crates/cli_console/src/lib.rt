// Standard input and output, for the programs. What fails is said once on the error output.
#![tactic(auto)]

pub mod sentences;

ghost use Rattle.std.specs.Prelude.{◌≡◌, true, false, ◌≤◌, length, IfOk, IfSome, OnOk, OnErr};
ghost use Rattle.std.specs.Result.{IfErr};

use std::env::FillError;
use std::io;
use std::io::{Error, Read, Stderr, Stdout, Write};
use std::rt::Env;

// Where a program writes: its output, and what it says to whoever runs it.
#[derive(Clone, Copy)]
pub struct Console {
    pub output: Stdout,
    pub errors: Stderr,
}

impl Console {
    pub fn of(rt: &HostRuntime) -> Self {
        Console {
            output: rt.stdout(),
            errors: rt.stderr(),
        }
    }
}

// A read that failed: what failed is said already. `held` counts the bytes that are there all the same.
#[derive(Clone, Copy, Debug, PartialEq, Eq)]
pub struct Failed {
    pub held: usize,
}

// Standard output, and whether a write to it has failed: nothing more is then written. Kept beside the console and no error in its
// place, since a listing goes on after a failed write: what refuses the input is still said on the error output, as programs must print.
#[derive(Clone, Copy)]
pub struct Output {
    pub console: Console,
    pub failed: bool,
}

impl Output {
    pub fn new(console: Console) -> Self
        ensures { result.failed ≡ false }
    {
        Output {
            console,
            failed: false,
        }
    }

    fn after(self, written: io::Result<()>) -> Self
        ensures ok { OnOk written (result.failed ≡ self.failed) }
        ensures err { OnErr written (result.failed ≡ true) }
    {
        match written {
            Ok(()) => self,
            Err(error) => {
                fail(self.console, b"standard output", error);
                Output {
                    console: self.console,
                    failed: true,
                }
            }
        }
    }

    // Writes, unless a write has failed.
    fn write<F: FnOnce(Stdout) -> io::Result<()> + Drop>(self, write: F) -> Self
        requires { F.pre write self.console.output }
        ensures { self.failed ≡ true → result.failed ≡ true }
    {
        if self.failed {
            return self;
        }
        let console = self.console;
        self.after(write(console.output))
    }

    pub fn text(self, words: &[u8]) -> Self
        ensures { self.failed ≡ true → result.failed ≡ true }
    {
        self.write(|out| Print::write_all(&out, words))
    }

    pub fn number(self, n: u64) -> Self
        ensures { self.failed ≡ true → result.failed ≡ true }
    {
        self.write(|out| print!(out; "{n}"))
    }

    // A number at the right of a column of ten digits.
    pub fn column(self, n: u64) -> Self
        ensures { self.failed ≡ true → result.failed ≡ true }
    {
        self.write(|out| print!(out; "{n:>10}"))
    }

    // A byte as two hexadecimal digits.
    pub fn byte(self, b: u8) -> Self
        ensures { self.failed ≡ true → result.failed ≡ true }
    {
        self.write(|out| print!(out; "{b:02x}"))
    }
}

// What is said to whoever runs the program, beside its output.
pub fn complain(console: Console, words: &[u8]) {
    let _ = Print::write_all(&console.errors, words);
}

pub fn complain_number(console: Console, n: u64) {
    let errors = console.errors;
    let _ = print!(errors; "{n}");
}

// The system's words for an error, without its number.
fn words_alone(text: &str) -> &str {
    match text.split_once(" (os error ") {
        Some((words, _)) => words,
        None => text,
    }
}

// A line on the error output: what failed, as the caller names it, and the system's words for why.
pub fn fail(console: Console, what: &[u8], error: Error) {
    let mut space = [0u8; 128];
    let mut rest: &mut [u8] = &mut space;
    let _ = write!(rest, "{error}");
    complain(console, what);
    complain(console, b": ");
    if let Ok(text) = std::str::from_utf8(&space) {
        complain(console, words_alone(text.trim_end_matches('\0')).as_bytes());
    }
    complain(console, b"\n");
}

// Puts the program's argument at an index at the start of the space, and tells how many bytes it has, where it is there and fits.
pub fn argument<E: Env>(rt: &E, i: usize, space: &mut [u8]) -> Option<usize>
    ensures { IfSome result (λ n. n ≤ length space.new) }
{
    rt.arg(i, space).ok()
}

// Whether the program's argument at an index is these words.
pub fn argument_is<E: Env>(rt: &E, i: usize, words: &[u8]) -> bool {
    let mut space = [0u8; 64];
    match argument(rt, i, &mut space) {
        Some(n) => &space[..n] == words,
        None => false,
    }
}

fn has_argument<E: Env>(rt: &E, i: usize) -> bool {
    let mut space = [0u8; 64];
    !matches!(rt.arg(i, &mut space), Err(FillError::NotPresent))
}

// How many arguments the program was started with, its own name among them.
pub fn argument_count<E: Env>(rt: &E) -> usize {
    for i in 0..usize::MAX {
        if !has_argument(rt, i) {
            return i;
        }
    }
    usize::MAX
}

// Whether the program was started with no argument, as one that takes none must be; otherwise says how it is used.
pub fn is_alone<E: Env>(rt: &E, console: Console, usage: &[u8]) -> bool {
    if argument_count(rt) <= 1 {
        return true;
    }
    complain(console, usage);
    false
}

// Zeroed bytes. The `ensures` gives only the length, which lending the array as a slice needs.
pub fn room<const N: usize>() -> [u8; N]
    ensures { N ≡ length result }
{
    [0; N]
}

fn read_failed(console: Console, held: usize, error: Error) -> Failed
    ensures { result.held ≡ held }
{
    fail(console, b"standard input", error);
    Failed { held }
}

// One read of standard input; 0 bytes are the end of the input.
pub fn read_some<R: Read>(
    console: Console,
    input: &mut R,
    bytes: &mut [u8],
) -> Result<usize, Failed>
    ensures came { IfOk result (λ n. n ≤ length bytes.new) }
    ensures failed { IfErr result (λ failed. failed.held ≤ length bytes.new) }
{
    match input.read(bytes) {
        Ok(n) => Ok(n),
        Err(error) => Err(read_failed(console, 0, error)),
    }
}

// Reads until the bytes are full, the input ends or a read fails; `held` counts the bytes that came. The library's read_exact tells no
// count where the input ends first, so the loop stays.
fn fill<R: Read>(input: &mut R, bytes: &mut [u8], held: &mut usize) -> io::Result<()>
    requires { held.old ≡ 0 }
    ensures { held.new ≤ length bytes.new }
{
    while *held < bytes.len() {
        let n = input.read(&mut bytes[*held..])?;
        if n == 0 {
            break;
        }
        *held += n;
    }
    Ok(())
}

// Reads until the bytes are full or the input ends.
pub fn read_full<R: Read>(
    console: Console,
    input: &mut R,
    bytes: &mut [u8],
) -> Result<usize, Failed>
    ensures came { IfOk result (λ n. n ≤ length bytes.new) }
    ensures failed { IfErr result (λ failed. failed.held ≤ length bytes.new) }
{
    let mut held = 0;
    match fill(input, bytes, &mut held) {
        Ok(()) => Ok(held),
        Err(error) => Err(read_failed(console, held, error)),
    }
}

// Reads until the bytes are full, the input ends or a read fails, of which nothing is said, and tells how many bytes came.
pub fn read_quietly<R: Read>(input: &mut R, bytes: &mut [u8]) -> usize
    ensures { result ≤ length bytes.new }
{
    let mut held = 0;
    let _ = fill(input, bytes, &mut held);
    held
}
