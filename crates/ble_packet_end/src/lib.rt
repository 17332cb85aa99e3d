// The packet at the front of some bytes, as of a reply's joined packets: where it ends, and what it says.
#![tactic(auto)]

ghost use Rattle.std.specs.Prelude.{◌≡◌};
ghost use Rattle.ble_packet.specs.Reader.{told};
ghost use Rattle.ble_packet_end.specs.End.{said_by, end_of, front_of};

use ble_packet::control::ACK_SIZE;
use ble_packet::header;
use ble_packet::reader::{Packet, Refusal, length_at, read};
use wire::bytes::byte_at;

// The length that a packet of a message says.
fn said_length(bytes: &[u8], first: bool, extended: bool) -> usize
    ensures { result ≡ said_by bytes.now first extended }
{
    let size = header::header_size(first, extended);
    let place = header::length_place(first);
    size + length_at(bytes, place, extended)
}

// Where the packet at the front of some bytes ends, by its own header, be they as many or not.
pub fn end_of(bytes: &[u8]) -> usize
    ensures { result ≡ end_of bytes.now }
{
    let second = byte_at(bytes, 1);
    let kind = header::type_bits(second);
    if kind == header::TYPE_CONTROL {
        return ACK_SIZE;
    }
    said_length(
        bytes,
        kind == header::TYPE_FIRST,
        header::extender_bit(second),
    )
}

// The packet at the front of some bytes read, for a link with a limit.
pub fn read_front(limit: usize, bytes: &[u8]) -> Result<Packet, Refusal>
    ensures { told result ≡ front_of limit bytes.now }
{
    let end = end_of(bytes);
    if end < bytes.len() {
        return read(limit, &bytes[..end]);
    }
    read(limit, bytes)
}
