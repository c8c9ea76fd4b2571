//! Copies of an opening, and the state that it begins with.
ghost use Rattle.std.specs.Prelude.{◌≡◌, IfOk};
ghost use Rattle.cluster_history.specs.Openings.{IsValidOpening, opening_state};

use base_ids::{Items, NoMemory};
use cluster_history::Opening;
use std::alloc::Global;
use topo_state::{Table, TableList, TopoState};

/// Equal tables.
fn clones(alloc: Global, tables: &[Table]) -> Result<TableList, NoMemory>
    ensures { IfOk result (λ copies. copies ≡ tables.now) }
{
    let mut copies = Items::new(alloc);
    'tables: for table in tables {
        copies.push(table.clone_in(alloc)?)?;
    }
    Ok(copies)
}

/// An equal opening.
pub(crate) fn copied(alloc: Global, opening: &Opening) -> Result<Opening, NoMemory>
    ensures { IfOk result (λ copy. copy ≡ opening.now) }
{
    Ok(Opening {
        hosts: opening.hosts,
        lanes: opening.lanes,
        shards: opening.shards,
        members: opening.members.clone_in(alloc)?,
        tables: clones(alloc, opening.tables.as_slice())?,
    })
}

/// The state of the topology at an opening. `NoMemory` comes where memory for it is refused.
pub fn first_state(alloc: Global, opening: &Opening) -> Result<TopoState, NoMemory>
    requires { IsValidOpening opening.now }
    ensures { IfOk result (λ state. state ≡ opening_state opening.now) }
{
    let members = opening.members.clone_in(alloc)?;
    let tables = clones(alloc, opening.tables.as_slice())?;
    TopoState::new(alloc, opening.hosts, opening.shards, members, tables)
}
