// Captures for C: the packet at a place, whether a capture is lawful, why not, and what it cost.
ghost use Rattle.std.specs.Prelude.{◌≡◌, []};
ghost use Rattle.c_judge.specs.Calls.{capture_judge_of, capture_why_of};
ghost use Rattle.c_packets.specs.Calls.{capture_packet_of};
ghost use Rattle.c_report.specs.Calls.{report_called, report_add_of};
ghost use Rattle.c_rows.specs.Called.{called};

use ble_slot::Slot;

// Reads the packet at a place of a capture.
#[unsafe(no_mangle)]
pub extern "C" fn pito_capture_packet(capture: &[u8], place: u64, answer: &mut [u64]) -> u64
    ensures { called result [] [] answer.new
        ≡ capture_packet_of capture.now place answer.old }
{
    c_packets::calls::pito_capture_packet(capture, place, answer)
}

// Judges a capture for a room and a limit.
#[unsafe(no_mangle)]
pub extern "C" fn pito_capture_judge(
    capture: &[u8],
    room: u64,
    limit: u64,
    answer: &mut [u64],
) -> u64
    ensures { called result [] [] answer.new
        ≡ capture_judge_of capture.now room limit answer.old }
{
    c_judge::calls::pito_capture_judge(capture, room, limit, answer)
}

// Judges it as pito_capture_judge does, and tells what is open, what came and what was expected.
#[unsafe(no_mangle)]
pub extern "C" fn pito_capture_why(capture: &[u8], room: u64, limit: u64, answer: &mut [u64]) -> u64
    ensures { called result [] [] answer.new
        ≡ capture_why_of capture.now room limit answer.old }
{
    c_judge::calls::pito_capture_why(capture, room, limit, answer)
}

// Adds what a capture cost, read by a fresh link of a limit, to a report.
#[unsafe(no_mangle)]
pub extern "C" fn pito_report_add(
    report: &mut [u64],
    limit: u64,
    row: &mut [Slot],
    buffer: &mut [u8],
    capture: &[u8],
    answer: &mut [u64],
) -> u64
    ensures { report_called result report.new row.new buffer.new answer.new
        ≡ report_add_of report.old limit row.old buffer.old capture.now
        answer.old }
{
    c_report::calls::pito_report_add(report, limit, row, buffer, capture, answer)
}
