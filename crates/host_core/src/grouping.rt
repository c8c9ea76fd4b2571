//! Which table is regrouped at an input.
ghost use Rattle.std.specs.Prelude.{◌≡◌, ◌≤◌, IfSome, OnOk, OnErr, None};
ghost use Rattle.base_ids.specs.declared.ids.TableId.{TableId};
ghost use Rattle.host_core.specs.Groups.{grouped_table, grouping_for, grouping_told, grouping_by, state_in, runs_with, AreLeft};

use crate::data::{HostInput, Made};
use barrier_core::What;
use base_ids::{NoMemory, TableId};
use replica_store::Store;
use topo_state::{Command, TopoState, split_table};

/// A table, and the logarithm of the count of runs into which its cells are laid.
#[derive(Clone, Copy, Debug, PartialEq, Eq)]
pub struct Grouping {
    /// The table.
    pub table: TableId,
    /// The count's logarithm.
    pub log2: u8,
}

/// The table that a command makes or resizes.
pub fn grouped_table(command: &Command) -> Option<TableId>
    ensures { result ≡ grouped_table command.now }
{
    match command {
        Command::CreateTable { table, .. } => Some(*table),
        Command::FinalizeResize { table, .. } => Some(*table),
        _ => None,
    }
}

/// A table as a state divides it.
pub fn grouping_for(state: &TopoState, id: Option<TableId>) -> Option<Grouping>
    ensures grouping { result ≡ grouping_for state.now id }
    ensures few { IfSome result (λ grouping. grouping.log2 ≤ 10) }
{
    match id {
        None => None,
        Some(id) => match state.table(id) {
            None => None,
            Some(table) => Some(Grouping {
                table: table.id,
                log2: table.map.log2(),
            }),
        },
    }
}

/// The table of a split that a host is to be ready for, as it is divided afterwards.
pub fn grouping_told(state: &TopoState, what: What) -> Option<Grouping>
    ensures grouping { result ≡ grouping_told state.now what }
    ensures few { IfSome result (λ grouping. grouping.log2 ≤ 10) }
{
    match what {
        What::Ready(number) => match split_table(state, number) {
            None => None,
            Some(table) => {
                let log2 = table.map.log2();
                if log2 < 10 {
                    Some(Grouping {
                        table: table.id,
                        log2: log2 + 1,
                    })
                } else {
                    None
                }
            }
        },
        _ => None,
    }
}

/// The table that is regrouped at an input.
pub fn grouping_of(state: &TopoState, made: &Option<Made>, input: &HostInput) -> Option<Grouping>
    ensures grouping { result ≡ grouping_by state.now (state_in made.now) input.now }
    ensures few { IfSome result (λ grouping. grouping.log2 ≤ 10) }
{
    match input {
        HostInput::Apply(command) => match made {
            Some(Made::State(next)) => grouping_for(next, grouped_table(command.get())),
            Some(Made::Sent(_)) | None => None,
        },
        HostInput::Answer(ask) => grouping_told(state, ask.what),
        _ => None,
    }
}

/// Lays the cells of a table into runs, where one is named.
pub fn regroup<S: Store>(store: &mut S, grouping: Option<Grouping>) -> Result<(), NoMemory>
    requires { IfSome grouping (λ grouping. grouping.log2 ≤ 10) }
    ensures cells { S.cells store.new ≡ S.cells store.old }
    ensures room { grouping ≡ None → S.spare store.new ≡ S.spare store.old }
    ensures ok { OnOk result ((t : TableId) → S.runs store.new t ≡ runs_with grouping (S.runs store.old) t) }
    ensures err { OnErr result (AreLeft grouping (S.runs store.old) (S.runs store.new)) }
{
    match grouping {
        Some(grouping) => store.regroup(grouping.table, grouping.log2),
        None => Ok(()),
    }
}
