// Sums of a report's numbers, each within 64 bits.
ghost use Rattle.std.specs.Prelude.{◌≡◌, Some, None, cond};
ghost use Rattle.wire.specs.Stream.{is_stream, stream_of};
ghost use Rattle.capture_report.specs.Report.{costs_plus, plus, costs_fit, summed};
ghost use Rattle.capture_report.specs.Turns.{on_top};
ghost use Rattle.capture_tally.specs.Count.{only, only_for};
ghost use Rattle.capture_tally.specs.Tally.{told_sum};

use capture_report::{CostReport, Costs};
use wire::stream::Stream;

// The numbers added; none where a sum would have more than 64 bits.
fn add_costs(a: Costs, b: Costs) -> Option<Costs>
    ensures { result ≡ cond (costs_fit (costs_plus a b)) (Some (costs_plus a b)) None }
{
    Some(Costs {
        firsts: a.firsts.checked_add(b.firsts)?,
        finished: a.finished.checked_add(b.finished)?,
        replaced: a.replaced.checked_add(b.replaced)?,
        dropped: a.dropped.checked_add(b.dropped)?,
        pending: a.pending.checked_add(b.pending)?,
        payload: a.payload.checked_add(b.payload)?,
        bytes: a.bytes.checked_add(b.bytes)?,
    })
}

fn add_reports(a: CostReport, b: CostReport) -> Option<CostReport>
    ensures { told_sum result ≡ summed (plus a b) }
{
    Some(CostReport {
        control: add_costs(a.control, b.control)?,
        ota: add_costs(a.ota, b.ota)?,
        alexa: add_costs(a.alexa, b.alexa)?,
    })
}

// What a packet of a stream adds: the numbers of the other two stay. No stream, nothing.
pub(crate) fn add_to(report: CostReport, stream: Option<Stream>, more: Costs) -> Option<CostReport>
    ensures { told_sum result ≡ summed (plus report (only_for stream more)) }
{
    let Some(stream) = stream else {
        return Some(report);
    };
    match stream {
        Stream::Control => Some(CostReport {
            control: add_costs(report.control, more)?,
            ..report
        }),
        Stream::Ota => Some(CostReport {
            ota: add_costs(report.ota, more)?,
            ..report
        }),
        Stream::Alexa => Some(CostReport {
            alexa: add_costs(report.alexa, more)?,
            ..report
        }),
    }
}

// The stream that has this number; none where no stream has it.
pub(crate) fn stream_named(number: u8) -> Option<Stream>
    ensures { result ≡ cond (is_stream number) (Some (stream_of number)) None }
{
    Stream::try_from(number).ok()
}

// What add_to adds, by the stream's number; one that is no stream's adds nothing.
pub fn add_own(report: CostReport, number: u8, more: Costs) -> Option<CostReport>
    ensures { told_sum result ≡ summed (plus report (only number more)) }
{
    add_to(report, stream_named(number), more)
}

// With more on top; what is over stays over.
pub fn add_more(sum: Option<CostReport>, more: CostReport) -> Option<CostReport>
    ensures { told_sum result ≡ on_top (told_sum sum) more }
{
    add_reports(sum?, more)
}
