//! The own step of the three kinds of actors.
ghost use Rattle.engine_players.specs.Steps.{ActorsStep};

/// A host, a lane and a coordinator make of an event before their turn what the history makes of it there.
pub fn law_players_step()
    ensures { ActorsStep }
{}
