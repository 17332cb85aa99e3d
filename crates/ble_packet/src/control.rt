// The layout of ACK and NACK packets, for the reader and their writer.
ghost use Rattle.std.specs.Prelude.{◌≡◌};
ghost use Rattle.ble_packet.specs.Control.{ack_code};

pub const ACK_SIZE: usize = 6;

// What follows the first two bytes: these three, then the code.
pub const ACK_RESERVED: u8 = 0;

pub const ACK_LENGTH: u8 = 2;

pub const ACK_MARK: u8 = 1;

pub const CODE_ACK: u8 = 0;

pub const CODE_NACK: u8 = 3;

pub fn ack_code(positive: bool) -> u8
    ensures { result ≡ ack_code positive }
{
    if positive { CODE_ACK } else { CODE_NACK }
}
