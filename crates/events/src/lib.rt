// Who hears a change, the event records of a call, and the event message of a record for a watch.
#![tactic(auto)]

pub mod changes;
pub mod domain_events;
pub mod hearing;
pub mod masks;
pub mod message;
mod record;
mod report;
