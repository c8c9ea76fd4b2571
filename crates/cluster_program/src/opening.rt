//! Copies of openings.
ghost use Rattle.std.specs.Prelude.{◌≡◌, IfOk};

use base_ids::{Items, NoMemory};
use cluster_history::Opening;
use std::alloc::Global;
use topo_state::{Table, TableList};

/// Equal tables.
fn copy_tables(alloc: Global, tables: &[Table]) -> Result<TableList, NoMemory>
    ensures { IfOk result (λ copy. copy ≡ tables.now) }
{
    let mut copy = Items::new(alloc);
    for table in tables {
        let table = table.clone_in(alloc)?;
        copy.push(table)?;
    }
    Ok(copy)
}

/// An equal opening.
pub(crate) fn copy_opening(alloc: Global, opening: &Opening) -> Result<Opening, NoMemory>
    ensures { IfOk result (λ copy. copy ≡ opening.now) }
{
    Ok(Opening {
        hosts: opening.hosts,
        lanes: opening.lanes,
        shards: opening.shards,
        members: opening.members.clone_in(alloc)?,
        tables: copy_tables(alloc, opening.tables.as_slice())?,
    })
}
