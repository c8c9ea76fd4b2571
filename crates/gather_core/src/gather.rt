//! Pulls that are made one after the other.
ghost use Rattle.std.specs.Prelude.{◌≡◌, ◌↔◌, ◌≤◌, ◌<◌, ◌+◌, ◌-◌, ◌^◌, length, IsNone, IfOk, OnOk, OnErr, IfSome, option_map, None, Some};
ghost use Rattle.base_ids.specs.declared.ids.TableId.{TableId};
ghost use Rattle.replica_store.specs.Cells.{IsOrdered};
ghost use Rattle.stream_core.specs.Pulls.{next_ask, pull_after, cells_after};
ghost use Rattle.stream_core.specs.Took.{took_of as pull_took};
ghost use Rattle.stream_core.specs.declared.pull.Took.{Took};
ghost use Rattle.gather_core.specs.Gathers.{begun, gather_after, stored_after, took_of, first_of};

use crate::data::Route;
use base_ids::{NoMemory, Session, TableId};
use replica_store::Store;
use std::marker::Model;
use stream_core::{ChunkAsk, ChunkMsg, Pull, Took};
use token_ring::TokenRange;

/// Pulls of a range of a table, made one after the other, each under the session after the one before.
#[derive(Drop)]
pub struct Gather {
    pull: Option<Pull>,
    routes: Vec<Route>,
    at: usize,
}

impl Model for Gather {
    ghost use Rattle.std.specs.Prelude.{drop};
    ghost use Rattle.gather_core.specs.Gathers.{Gathering, IsGather};

    ghost Value = { Gathering };

    ghost view = { λ g. record { pull = g.pull; rest = drop g.at g.routes.items } };

    ghost invariant = { λ g. IsGather g.pull g.at g.routes.items };
}

/// The pull by the first of these routes.
fn first_pull(session: Session, table: TableId, range: TokenRange, routes: &[Route]) -> Option<Pull>
    ensures { result ≡ first_of session table range routes.now }
{
    match routes {
        [] => None,
        [route, ..] => Some(Pull::new(session, table, range, route.by, route.from)),
    }
}

impl Gather {
    ghost use Rattle.gather_core.specs.Gathers.{begun};

    /// The pulls that are to be made, in order, the first one under this session. Takes no memory.
    pub fn new(first: Session, table: TableId, range: TokenRange, routes: Vec<Route>) -> Gather
        requires { first.0 + length routes.items < 2 ^ 64 }
        ensures { result ≡ begun first table range routes.items }
    {
        let pull = first_pull(first, table, range, routes.as_slice());
        let at = if pull.is_some() { 1 } else { 0 };
        Gather { pull, routes, at }
    }

    /// What to ask for next. `None` comes exactly where all pulls are done.
    pub fn next_ask(&self) -> Option<ChunkAsk>
        ensures { result ≡ option_map next_ask self.now.pull }
    {
        match &self.pull {
            Some(pull) => Some(pull.ask()),
            None => None,
        }
    }

    /// Stores the cells of a chunk in the store of the host that pulls, and goes on behind them. `Foreign` comes
    /// exactly where all pulls are done or the chunk is not the next one of the pull that goes on, and then nothing is
    /// changed; `Done` exactly at the chunk that ends the last pull. `NoMemory` leaves the pulls and what the store
    /// holds.
    pub fn take<S: Store>(&mut self, store: &mut S, chunk: &ChunkMsg) -> Result<Took, NoMemory>
        ensures took { IfOk result (λ took. took ≡ took_of self.old chunk.now) }
        ensures gather { OnOk result (self.new ≡ gather_after self.old chunk.now) }
        ensures cells { OnOk result (IsOrdered (S.cells store.old)
            → S.cells store.new ≡ stored_after self.old (S.cells store.old) chunk.now) }
        ensures ordered { IsOrdered (S.cells store.old) → IsOrdered (S.cells store.new) }
        ensures err { OnErr result (self.new ≡ self.old) }
        ensures err_cells { OnErr result (S.cells store.new ≡ S.cells store.old) }
        ensures foreign { IfOk result (λ took. took ≡ Took.Foreign → store.new ≡ store.old) }
        ensures same_runs { (t : TableId) → S.runs store.new t ≡ S.runs store.old t }
    {
        let Some(pull) = &mut self.pull else {
            return Ok(Took::Foreign);
        };
        let ask = pull.ask();
        let took = take_next(pull, store, chunk)?;
        if took != Took::Done {
            return Ok(took);
        }
        self.go_on(Session(ask.session.0 + 1), ask.table, ask.range);
        match &self.pull {
            Some(_) => Ok(Took::More),
            None => Ok(Took::Done),
        }
    }

    /// Begins the next pull, where there is one.
    fn go_on(&mut self, session: Session, table: TableId, range: TokenRange)
        requires { session.0 + length self.old.rest ≤ 2 ^ 64 - 1 }
        ensures { self.new ≡ begun session table range self.old.rest }
    {
        self.pull = first_pull(session, table, range, &self.routes[self.at..]);
        if self.at < self.routes.len() {
            self.at += 1;
        }
    }
}

/// Takes a chunk for one pull, where it is its next one, and makes room for it before.
fn take_next<S: Store>(pull: &mut Pull, store: &mut S, chunk: &ChunkMsg) -> Result<Took, NoMemory>
    ensures took { IfOk result (λ took. took ≡ pull_took pull.old chunk.now) }
    ensures pull { OnOk result (pull.new ≡ pull_after pull.old chunk.now) }
    ensures cells { OnOk result (IsOrdered (S.cells store.old)
        → S.cells store.new ≡ cells_after (S.cells store.old) pull.old chunk.now) }
    ensures ordered { IsOrdered (S.cells store.old) → IsOrdered (S.cells store.new) }
    ensures err { OnErr result (pull.new ≡ pull.old) }
    ensures err_cells { OnErr result (S.cells store.new ≡ S.cells store.old) }
    ensures foreign { IfOk result (λ took. took ≡ Took.Foreign → store.new ≡ store.old) }
    ensures same_runs { (t : TableId) → S.runs store.new t ≡ S.runs store.old t }
{
    if pull.judge(chunk) == Took::Foreign {
        return Ok(Took::Foreign);
    }
    store.reserve(chunk.cells.as_slice().len())?;
    Ok(pull.take_chunk(store, chunk))
}
