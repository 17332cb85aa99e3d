// Judges a sender by its packets: whether our writer would write them, for some transactions.
#![tactic(auto)]

pub mod capture;
pub mod input;
pub mod step;

ghost use Rattle.std.specs.Prelude.{◌≡◌};
ghost use Rattle.capture_judge.specs.Step.{slot_in, with_slot, idle, all_idle};

use capture_stream::SenderSlot;
use wire::logic::both;
use wire::stream::Stream;

// The room of a link's packets and the limit of its transactions.
#[derive(Clone, Copy, Debug, PartialEq, Eq)]
pub struct Settings {
    pub room: usize,
    pub limit: usize,
}

// A slot for each stream. Its fields are named, with no generic type for three of a kind: slot_in and the claims of
// capture_judge_claims name them.
#[derive(Clone, Copy, Debug, PartialEq, Eq)]
pub struct State {
    pub control: SenderSlot,
    pub ota: SenderSlot,
    pub alexa: SenderSlot,
}

impl State {
    pub fn new() -> Self
        ensures { result ≡ idle }
    {
        State {
            control: SenderSlot::Idle,
            ota: SenderSlot::Idle,
            alexa: SenderSlot::Idle,
        }
    }

    pub fn slot(self, stream: Stream) -> SenderSlot
        ensures { result ≡ slot_in self stream }
    {
        match stream {
            Stream::Control => self.control,
            Stream::Ota => self.ota,
            Stream::Alexa => self.alexa,
        }
    }

    fn with_slot(self, stream: Stream, slot: SenderSlot) -> Self
        ensures { result ≡ with_slot self stream slot }
    {
        match stream {
            Stream::Control => State {
                control: slot,
                ..self
            },
            Stream::Ota => State { ota: slot, ..self },
            Stream::Alexa => State {
                alexa: slot,
                ..self
            },
        }
    }

    // Whether no transaction is open.
    pub fn is_idle(self) -> bool
        ensures { result ≡ all_idle self }
    {
        both(
            self.control.is_idle(),
            both(self.ota.is_idle(), self.alexa.is_idle()),
        )
    }
}
