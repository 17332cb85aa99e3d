// The library for C: what include/pitokaenge.h declares, and nothing else. Each exported function is one call of the function of
// the same name in the crate of its topic, with the same contract.
#![tactic(auto)]

mod captures;
mod classic;
mod low_energy;
mod messages;
mod outbox_file;
mod replies;
mod text;
mod version;
