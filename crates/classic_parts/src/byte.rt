// One output byte: a pure decision by the state and the payload bytes that are offered.
ghost use Rattle.std.specs.Prelude.{◌≡◌, ◌<◌, Some};
ghost use Rattle.classic_frame.specs.Mark.{kind_of};
ghost use Rattle.classic_parts.specs.Byte.{first_by, goes, took, own, closing, body_byte, stage_byte, byte_of, told_byte};

use crate::state::{PartProgress, Stage};
use classic_frame::checksum::add_byte;
use classic_frame::header::{ERROR_ID, PACKET_ID};
use classic_frame::mark::{END_CODE, ESCAPE_CODE, Kind, Mark, START_CODE, is_mark, kind_of};

// One output byte, the state after it and the payload bytes that it took.
#[derive(Drop)]
pub struct Emitted {
    pub value: u8,
    pub next: PartProgress,
    pub taken: usize,
}

// The first byte of what a byte of payload or checksum becomes.
fn first(b: u8) -> u8
    ensures { result ≡ first_by (kind_of b) b }
{
    if is_mark(b) { Mark::ESCAPE } else { b }
}

impl PartProgress {
    // The state at a stage, with a code pending or none.
    fn goes(self, stage: Stage, pending: Kind) -> Self
        ensures { result ≡ goes self stage pending }
    {
        PartProgress {
            stage,
            pending,
            ..self
        }
    }

    // A mark, a header byte or a code, and the stage after it.
    fn own(self, value: u8, stage: Stage) -> Option<Emitted>
        ensures { told_byte result ≡ own self value stage }
    {
        Some(Emitted {
            value,
            next: self.goes(stage, Kind::Plain),
            taken: 0,
        })
    }

    // A byte of the checksum, and the stage after it.
    fn closing(self, b: u8, stage: Stage) -> Option<Emitted>
        ensures { told_byte result ≡ closing self b stage }
    {
        Some(Emitted {
            value: first(b),
            next: self.goes(stage, kind_of(b)),
            taken: 0,
        })
    }

    // The state with a payload byte taken.
    fn took(self, b: u8) -> Self
        requires { self.taken < self.total }
        ensures { result ≡ took self b }
    {
        PartProgress {
            taken: self.taken + 1,
            sum: add_byte(self.sum, b),
            pending: kind_of(b),
            ..self
        }
    }

    // The first payload byte offered or, after the last one, the checksum's high byte.
    fn body(self, offered: &[u8]) -> Option<Emitted>
        ensures { told_byte result ≡ body_byte self offered.now }
    {
        if self.taken >= self.total {
            return self.closing((self.sum / 256) as u8, Stage::Low);
        }
        let b = *offered.first()?;
        Some(Emitted {
            value: first(b),
            next: self.took(b),
            taken: 1,
        })
    }

    // The byte of the stage.
    fn stage_byte(self, offered: &[u8]) -> Option<Emitted>
        ensures { told_byte result ≡ stage_byte self.stage self offered.now }
    {
        let stage = self.stage;
        match stage {
            Stage::Start => self.own(Mark::START, Stage::PacketId),
            Stage::PacketId => self.own(PACKET_ID, Stage::ErrorId),
            Stage::ErrorId => self.own(ERROR_ID, Stage::Sequence),
            Stage::Sequence => self.own(self.sequence, Stage::Payload),
            Stage::Payload => self.body(offered),
            Stage::Low => self.closing((self.sum % 256) as u8, Stage::End),
            Stage::End => self.own(Mark::END, Stage::Done),
            Stage::Done => None,
        }
    }

    // The next output byte, where one can be written: a pending code, or the byte of the stage.
    pub fn emit(self, offered: &[u8]) -> Option<Emitted>
        ensures { told_byte result ≡ byte_of self offered.now }
    {
        let pending = self.pending;
        let stage = self.stage;
        match pending {
            Kind::Start => self.own(START_CODE, stage),
            Kind::End => self.own(END_CODE, stage),
            Kind::Escape => self.own(ESCAPE_CODE, stage),
            Kind::Plain => self.stage_byte(offered),
        }
    }
}
