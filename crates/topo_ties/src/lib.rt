//! What ties a topology coordinator to a history: after each event it is what the history says of it, and what it gives
//! out are the outputs of the event.
#![tactic(auto)]

mod laws;

pub use laws::{
    law_proposals_are_judged, law_sessions_are_found_once, law_topos_begin, law_topos_have_inputs,
    law_topos_play, law_topos_restart, law_topos_stay,
};
