ghost use Rattle.std.specs.Prelude.{◌≡◌, IfOk, IfSome, map, option_map};
ghost use Rattle.topo_state.specs.State.{is_member};
ghost use Rattle.meta_snap.specs.Lists.{table_lists};
ghost use Rattle.meta_snap.specs.Routes.{directions_in, CanAnswer};

use crate::lists::{TableLists, lists_of_table, table_lists};
use crate::route::{Route, route_at};
use base_ids::{HostId, NoMemory, TableId, Version, is_same_host};
use shared_value::Shared;
use stage_graph::Level;
use std::alloc::Global;
use std::marker::Model;
use token_ring::{Token, tablet_of};
use topo_state::{Table, TopoState};

/// One state of the topology, with the lists of replicas that requests go to. Callers see it as that state.
#[derive(Drop)]
pub struct Snapshot {
    state: Shared<TopoState>,
    lists: Vec<TableLists>,
}

impl Model for Snapshot {
    ghost use Rattle.topo_state.specs.State.{Topology};
    ghost use Rattle.meta_snap.specs.Lists.{IsResolved};

    ghost Value = { Topology };

    ghost view = { λ s. s.state };

    ghost invariant = { λ s. IsResolved s.state s.lists.items };
}

impl Snapshot {
    ghost use Rattle.meta_snap.specs.Routes.{directions_lent};

    /// The snapshot of a copy of a state. `NoMemory` comes where memory for it is refused.
    pub fn resolve(alloc: Global, state: &TopoState) -> Result<Snapshot, NoMemory>
        ensures { IfOk result (λ snapshot. snapshot ≡ state.now) }
    {
        let copy = state.clone_in(alloc)?;
        Snapshot::over(alloc, Shared::new(alloc, copy)?)
    }

    /// The snapshot of a state that others may share: it is not copied. `NoMemory` comes where memory for the lists is
    /// refused.
    pub fn over(alloc: Global, state: Shared<TopoState>) -> Result<Snapshot, NoMemory>
        ensures { IfOk result (λ snapshot. snapshot ≡ state) }
    {
        let lists = all_lists(alloc, state.get().tables())?;
        Ok(Snapshot { state, lists })
    }

    /// The version of the state.
    pub fn version(&self) -> Version
        ensures { result ≡ self.now.version }
    {
        self.state.get().version()
    }

    /// Whether the host is a member.
    pub fn is_member(&self, host: HostId) -> bool
        ensures { result ≡ is_member self.now.members host }
    {
        self.state
            .get()
            .members()
            .iter()
            .any(|member| is_same_host(host, *member))
    }

    /// Where requests for a key go, and how many answers they need at a level. `None` where the state lacks the table, and only
    /// there. Nothing is copied: the lists are lent.
    pub fn route(&self, table: TableId, token: Token, level: Level) -> Option<Route<'_>>
        ensures route { option_map directions_lent result ≡ directions_in self.now table token.value level }
        ensures reads { IfSome result (λ route. CanAnswer route.reads.now route.read_need) }
        ensures writes { IfSome result (λ route. CanAnswer route.writes.now route.write_need) }
    {
        let found = self.state.get().table(table)?;
        let lists = lists_of_table(self.lists.as_slice(), table)?;
        let tablet = tablet_of(found.map.log2(), token);
        Some(route_at(
            found.map.tablets(),
            lists.tablets.as_slice(),
            tablet.0 as usize,
            level,
        ))
    }
}

/// The lists of each table.
fn all_lists(alloc: Global, tables: &[Table]) -> Result<Vec<TableLists>, NoMemory>
    ensures { IfOk result (λ lists. lists.items ≡ map table_lists tables.now) }
{
    let mut lists = Vec::new(alloc);
    for table in tables {
        lists.push(table_lists(alloc, table)?)?;
    }
    Ok(lists)
}
