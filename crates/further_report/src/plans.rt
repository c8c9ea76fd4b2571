//! The lines of a plan.
ghost use Rattle.std.specs.Prelude.{◌≡◌, ◌++◌, IfOk, OnOk, map};
ghost use Rattle.std.specs.String.{string_bytes};
ghost use Rattle.balance_plan.specs.Places.{place_of};
ghost use Rattle.further_report.specs.Lines.{balance_line, balance_lines, move_line, moving_line, replica_text};

use balance_plan::{Move, PlanError, plan};
use base_ids::{Items, Line, NoMemory, Replica, TableId};
use report_text::LineList;
use std::alloc::Global;
use token_ring::TabletId;
use topo_state::TopoState;

/// The text of a replica.
fn replica_text(alloc: Global, replica: Replica) -> Result<String, NoMemory>
    ensures { IfOk result (λ text. string_bytes text ≡ replica_text replica) }
{
    let host = replica.host.0;
    let shard = replica.shard.0;
    Ok(format!(in alloc; "{host}:{shard}")?)
}

/// The line of a move.
fn move_line(alloc: Global, moving: &Move) -> Result<Line, NoMemory>
    ensures { IfOk result (λ line. line ≡ move_line moving.now) }
{
    let table = moving.table.0;
    let tablet = moving.tablet.0;
    let from = replica_text(alloc, moving.from)?;
    let to = replica_text(alloc, moving.to)?;
    let line = format!(in alloc; "move {table} {tablet} {from} {to}\n")?;
    Ok(Items::from_vec(line.into_bytes()))
}

/// The line behind the moves.
fn balance_line(alloc: Global, moves: usize, spread: usize) -> Result<Line, NoMemory>
    ensures { IfOk result (λ line. line ≡ balance_line moves spread) }
{
    let line = format!(in alloc; "balance moves {moves} spread {spread}\n")?;
    Ok(Items::from_vec(line.into_bytes()))
}

/// The line where a tablet moves.
fn moving_line(alloc: Global, table: TableId, tablet: TabletId) -> Result<Line, NoMemory>
    ensures { IfOk result (λ line. line ≡ moving_line (place_of (table, tablet))) }
{
    let table = table.0;
    let tablet = tablet.0;
    let line = format!(in alloc; "balance moving {table} {tablet}\n")?;
    Ok(Items::from_vec(line.into_bytes()))
}

/// Adds a line for each of the moves.
fn add_moves(alloc: Global, moves: &[Move], lines: &mut LineList) -> Result<(), NoMemory>
    ensures { OnOk result (lines.new ≡ lines.old ++ map move_line moves.now) }
{
    for moving in moves {
        let line = move_line(alloc, moving)?;
        lines.push(line)?;
    }
    Ok(())
}

/// Adds the lines of the plan that evens out the tablets of the state, or the line of the first tablet that moves.
/// `NoMemory` comes where memory for the plan or for the lines is refused, and then some of them may have been added.
pub fn add_balance(alloc: Global, state: &TopoState, lines: &mut LineList) -> Result<(), NoMemory>
    ensures { OnOk result (lines.new ≡ lines.old ++ balance_lines state.now) }
{
    let _tables = state.tables();
    match plan(alloc, state) {
        Ok(made) => {
            add_moves(alloc, made.moves.as_slice(), lines)?;
            let last = balance_line(alloc, made.moves.as_slice().len(), made.spread)?;
            lines.push(last)
        }
        Err(PlanError::Moving { table, tablet }) => {
            let line = moving_line(alloc, table, tablet)?;
            lines.push(line)
        }
        Err(PlanError::NoMemory) => Err(NoMemory),
    }
}
