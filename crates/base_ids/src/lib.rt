// The identifiers, the lists and the small enums that every other crate speaks of.
#![tactic(auto)]

mod ids;
mod items;
mod memory;
mod replicas;
mod rules;

pub use ids::{
    Actor, FIRST_VERSION, HostId, LaneId, MsgRef, OpId, Replica, Session, ShardId, StateId,
    TableId, Version,
};
pub use items::{HostList, Items, Line, Text};
pub use memory::NoMemory;
pub use replicas::{
    ReplicaList, has_host, has_replica, is_on, is_same_host, is_same_replica, place_of_replica,
};
pub use rules::{Appended, EventRule, LimitName};
