// A capture judged: walked to its end, so that its own refusals come first.
ghost use Rattle.std.specs.Prelude.{◌≡◌};
ghost use Rattle.capture_judge.specs.declared.capture.Refusal.TheVariants.{Capture};
ghost use Rattle.capture_judge.specs.Capture.{gone_on, walked_of, traced_of, answer_in, answer_of, judged_of, number_of, trace_told, answer_told, told};

use crate::step::judge_packet;
use crate::{Settings, State};
use ble_sender::writer::room_fits;
use capture_reader::{RefusedAt, WIDTH, front_of, located, other_version};
use wire::limit::limit_fits;
use wire::refusal::Numbered;

// Long is the program's: a capture longer than it reads.
#[derive(Clone, Copy, Debug, PartialEq, Eq)]
pub enum Refusal {
    Long,
    Room,
    Limit,
    Capture(capture_reader::Refusal),
}

impl From<capture_reader::Refusal> for Refusal {
    ghost from_gives = { λ why refusal. refusal ≡ Capture why };

    fn from(why: capture_reader::Refusal) -> Refusal {
        Refusal::Capture(why)
    }
}

impl Numbered for Refusal {
    ghost number_of = { number_of };

    fn number(&self) -> u8 {
        match self {
            Refusal::Long => 1,
            Refusal::Room => 13,
            Refusal::Limit => 17,
            Refusal::Capture(why) => why.number(),
        }
    }
}

// What the packets so far say: what is open after them; or the place of the length of the first one after which nothing could be
// lawful, and what was open before it.
// No Result: a stop is no failure, and the walk goes on past it to the capture's own refusals, where `?` would end it.
#[derive(Clone, Copy, Debug, PartialEq, Eq)]
pub enum Judgement {
    Going(State),
    Stopped { at: usize, state: State },
}

// Lawful; or open, where the capture ends inside a transaction; or the place of that packet's length.
#[derive(Clone, Copy, Debug, PartialEq, Eq)]
pub enum SenderVerdict {
    Lawful,
    Open,
    Unlawful(usize),
}

// One packet more, whose length stands at a place.
fn go_on(verdict: Judgement, packet: &[u8], settings: Settings, at: usize) -> Judgement
    ensures { result ≡ gone_on settings.room settings.limit at verdict packet.now }
{
    match verdict {
        Judgement::Going(state) => {
            match judge_packet(packet, settings, state) {
                None => Judgement::Stopped { at, state },
                Some(next) => Judgement::Going(next),
            }
        }
        Judgement::Stopped { at: place, state } => Judgement::Stopped { at: place, state },
    }
}

// The capture, packet after packet.
fn walk(capture: &[u8], settings: Settings) -> Result<Judgement, RefusedAt<Refusal>>
    ensures { trace_told result ≡ walked_of settings.room settings.limit capture.now }
{
    if other_version(capture) {
        return Err(RefusedAt {
            why: Refusal::Capture(capture_reader::Refusal::Version),
            at: 0,
        });
    }
    let mut at = 1;
    let mut verdict = Judgement::Going(State::new());
    // From place to place, by lengths that are read there: no range or iterator says it.
    while at < capture.len() {
        let size = located(front_of(&capture[at..]), at)?;
        let start = at + WIDTH;
        let next = start + size;
        verdict = go_on(verdict, &capture[start..next], settings, at);
        at = next;
    }
    Ok(verdict)
}

// What the packets of a capture say, at a room and a limit.
pub fn trace(capture: &[u8], settings: Settings) -> Result<Judgement, RefusedAt<Refusal>>
    ensures { trace_told result ≡ traced_of settings.room settings.limit capture.now }
{
    if !room_fits(settings.room) {
        return Err(RefusedAt {
            why: Refusal::Room,
            at: 0,
        });
    }
    if !limit_fits(settings.limit) {
        return Err(RefusedAt {
            why: Refusal::Limit,
            at: 0,
        });
    }
    walk(capture, settings)
}

// The verdict at the end.
fn answer_in(verdict: Judgement) -> SenderVerdict
    ensures { answer_told result ≡ answer_in verdict }
{
    match verdict {
        Judgement::Going(state) => {
            if state.is_idle() {
                SenderVerdict::Lawful
            } else {
                SenderVerdict::Open
            }
        }
        Judgement::Stopped { at, state: _ } => SenderVerdict::Unlawful(at),
    }
}

pub(crate) fn answer_of(
    traced: Result<Judgement, RefusedAt<Refusal>>,
) -> Result<SenderVerdict, RefusedAt<Refusal>>
    ensures { told result ≡ answer_of (trace_told traced) }
{
    Ok(answer_in(traced?))
}

// Whether a capture is lawful for a room and a limit.
pub fn judge_capture(
    capture: &[u8],
    settings: Settings,
) -> Result<SenderVerdict, RefusedAt<Refusal>>
    ensures { told result ≡ judged_of settings.room settings.limit capture.now }
{
    answer_of(trace(capture, settings))
}
