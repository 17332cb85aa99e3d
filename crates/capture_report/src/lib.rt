// What the radio cost, over captures of links: a report, to which one capture after another is added.
#![tactic(auto)]

// What captures cost on one stream: first packets accepted; transactions finished, replaced, dropped and pending, which is left open at
// a capture's end; payload bytes of the finished ones; bytes of all packets.
#[derive(Clone, Copy, Debug, Default, PartialEq, Eq)]
pub struct Costs {
    pub firsts: u64,
    pub finished: u64,
    pub replaced: u64,
    pub dropped: u64,
    pub pending: u64,
    pub payload: u64,
    pub bytes: u64,
}

// Of each stream. The fields are named, with no generic type for three of a kind: costs_for, report_of and the claims of
// capture_report_claims name them.
#[derive(Clone, Copy, Debug, Default, PartialEq, Eq)]
pub struct CostReport {
    pub control: Costs,
    pub ota: Costs,
    pub alexa: Costs,
}
