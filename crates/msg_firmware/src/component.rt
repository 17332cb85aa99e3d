// FirmwareComponent, a message within firmware information.
ghost use Rattle.std.specs.Prelude.{◌≡◌};
ghost use Rattle.msg_firmware.specs.Component.{no_component, component_from, told_component};

use proto_field::unsigned::low_unsigned;
use proto_field::value::Part;
use proto_reader::reader::read_fields;
use proto_reader::refusal::MessageRefusal;
use proto_schema::{FIRST, SECOND, Schema};

// Strings are parts of the lent message.
#[derive(Clone, Copy)]
pub struct FirmwareComponent {
    pub version: u32,
    pub name: Part,
    pub size: u32,
    pub signature: Part,
}

impl FirmwareComponent {
    // An empty one.
    pub(crate) fn none() -> FirmwareComponent
        ensures { result ≡ no_component }
    {
        let none = Part { start: 0, len: 0 };
        FirmwareComponent {
            version: 0,
            name: none,
            size: 0,
            signature: none,
        }
    }
}

// The component from a place to the end.
#[tactic(auto, unfolding(crate::specs::Component::component_from))]
pub(crate) fn component_from(message: &[u8], at: usize) -> Result<FirmwareComponent, MessageRefusal>
    ensures { told_component result ≡ component_from message.now at }
{
    let gathered = read_fields(Schema::Component, message, at)?;
    Ok(FirmwareComponent {
        version: low_unsigned(gathered.scalars[FIRST]),
        name: gathered.texts[FIRST],
        size: low_unsigned(gathered.scalars[SECOND]),
        signature: gathered.texts[SECOND],
    })
}
