//! A host as plain data is what the history says of that host: at the opening, past the events of others, at its own
//! events with their outputs, and by the rules that its state decides.
#![tactic(auto)]

mod laws;

pub use laws::{
    law_host_pulls, law_host_rules, law_hosts_begin, law_hosts_have_inputs, law_hosts_play,
    law_hosts_restart, law_hosts_stay,
};
