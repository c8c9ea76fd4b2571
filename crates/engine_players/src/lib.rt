//! Hosts and coordinators at their desks: what an actor makes of an event before its turn is what the history makes of it
//! there, for hosts, lanes and coordinators alike.
#![tactic(auto)]

mod host;
mod laws;
mod topo;

pub use host::play_host;
pub use laws::law_players_step;
pub use topo::topo_propose;
