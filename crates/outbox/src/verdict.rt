// What is wrong with an outbox, and where.
ghost use Rattle.std.specs.Prelude.{◌≡◌};
ghost use Rattle.outbox.specs.Reader.{fault_number, broken_number};
ghost use Rattle.outbox.specs.declared.verdict.Fault.TheVariants.{Version};

use wire::refusal::Numbered;

// What is wrong with an outbox's bytes.
#[derive(Clone, Copy, Debug, PartialEq, Eq)]
pub enum Fault {
    Version,
    Length,
    Cut,
    Stream,
}

impl Numbered for Fault {
    ghost number_of = { fault_number };

    fn number(&self) -> u8 {
        match self {
            Fault::Version => 40,
            Fault::Length => 42,
            Fault::Cut => 41,
            Fault::Stream => 43,
        }
    }
}

// What is wrong first, and the place of the record where it is; 0 for the version.
#[derive(Clone, Copy, Debug, PartialEq, Eq)]
pub struct Broken {
    pub fault: Fault,
    pub place: usize,
}

impl Broken {
    // Of a file that has another version, or no byte at all.
    pub fn version() -> Self
        ensures { result ≡ record { fault = Version; place = 0 } }
    {
        Broken {
            fault: Fault::Version,
            place: 0,
        }
    }
}

impl Numbered for Broken {
    ghost number_of = { broken_number };

    fn number(&self) -> u8 {
        self.fault.number()
    }
}
