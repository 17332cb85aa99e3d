// The marks of a frame, and what stands for them within it.
ghost use Rattle.std.specs.Prelude.{◌≡◌};
ghost use Rattle.classic_frame.specs.Mark.{kind_of, is_mark_kind, is_mark};
ghost use Rattle.classic_frame.specs.Frame.{code_for, mark_for};

// The bytes that start a frame, end it and escape a byte.
#[derive(Drop)]
pub struct Mark;

impl Mark {
    pub const START: u8 = 0xf0;

    pub const END: u8 = 0xf1;

    pub const ESCAPE: u8 = 0xf2;
}

// What stands after F2 for each mark.
pub const START_CODE: u8 = 0x02;

pub const END_CODE: u8 = 0x03;

pub const ESCAPE_CODE: u8 = 0x00;

#[derive(Clone, Copy, Debug, PartialEq, Eq)]
pub enum Kind {
    Start,
    End,
    Escape,
    Plain,
}

impl Kind {
    pub fn needs_code(self) -> bool
        ensures { result ≡ is_mark_kind self }
    {
        self != Kind::Plain
    }
}

pub fn kind_of(b: u8) -> Kind
    ensures { result ≡ kind_of b }
{
    if b == Mark::START {
        return Kind::Start;
    }
    if b == Mark::END {
        return Kind::End;
    }
    if b == Mark::ESCAPE {
        return Kind::Escape;
    }
    Kind::Plain
}

pub fn is_mark(b: u8) -> bool
    ensures { result ≡ is_mark b }
{
    kind_of(b).needs_code()
}

// What stands after F2 for a mark.
pub fn code_for(mark: u8) -> u8
    ensures { result ≡ code_for mark }
{
    Mark::ESCAPE ^ mark
}

// The mark that a code after F2 stands for.
pub fn mark_for(code: u8) -> Option<u8>
    ensures { result ≡ mark_for code }
{
    match code {
        START_CODE => Some(Mark::START),
        END_CODE => Some(Mark::END),
        ESCAPE_CODE => Some(Mark::ESCAPE),
        _ => None,
    }
}
