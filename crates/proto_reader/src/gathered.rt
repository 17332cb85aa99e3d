// What is gathered of a message, field by field.
ghost use Rattle.std.specs.Prelude.{◌≡◌, ◌<◌};
ghost use Rattle.proto_reader.specs.Gathered.{most_repeated, nothing, with_scalar, with_text, with_member, with_repeated, with_transport, field_judged};

use proto_field::Refusal;
use proto_field::signed::low_signed;
use proto_field::value::Part;

// The most transports that are read and written.
pub const MOST_TRANSPORTS: usize = 8;
// The most messages of a repeated field that are read and written.
pub const MOST_REPEATED: usize = 8;

#[derive(Clone, Copy)]
pub struct Gathered {
    pub scalars: [u64; 2],
    pub texts: [Part; 3],
    // The member's field and part; 0 and the empty part without one: `apply_of` reads that part as an empty message, and `response_row` tells both.
    pub field: u64,
    pub part: Part,
    pub transports: [i32; 8],
    // Of the transports, or of the messages of a repeated field. The memory is fixed: the first count of eight are there.
    pub count: usize,
}

impl Gathered {
    // Nothing yet: scalars are 0, and parts are empty.
    pub(crate) fn nothing() -> Gathered
        ensures { result ≡ nothing }
    {
        let none = Part { start: 0, len: 0 };
        Gathered {
            scalars: [0u64; 2],
            texts: [none; 3],
            field: 0,
            part: none,
            transports: [0i32; 8],
            count: 0,
        }
    }

    // A scalar: the last one counts.
    pub(crate) fn set_scalar(&mut self, slot: usize, value: u64)
        ensures { self.new ≡ with_scalar slot value self.old }
    {
        if slot < self.scalars.len() {
            self.scalars[slot] = value;
        }
    }

    // A string: the last one counts.
    pub(crate) fn set_text(&mut self, slot: usize, part: Part)
        ensures { self.new ≡ with_text slot part self.old }
    {
        if slot < self.texts.len() {
            self.texts[slot] = part;
        }
    }

    // The member.
    pub(crate) fn set_member(&mut self, field: u64, part: Part)
        ensures { self.new ≡ with_member field part self.old }
    {
        self.field = field;
        self.part = part;
    }

    // One message more of a repeated field.
    pub(crate) fn count_message(&mut self)
        requires { self.old.count < most_repeated }
        ensures { self.new ≡ with_repeated self.old }
    {
        self.count += 1;
    }

    // One transport more, unless there are too many.
    #[tactic(auto, unfolding(crate::specs::Gathered::with_transport))]
    pub(crate) fn add_transport(&mut self, value: u64) -> Result<(), Refusal>
        ensures { field_judged result self.new ≡ with_transport value self.old }
    {
        if MOST_TRANSPORTS <= self.count {
            return Err(Refusal::TooMany);
        }
        self.transports[self.count] = low_signed(value);
        self.count += 1;
        Ok(())
    }
}
