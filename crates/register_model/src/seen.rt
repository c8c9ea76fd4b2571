// The events seen so far, as far as the next one is judged by them.
ghost use Rattle.std.specs.Prelude.{◌≡◌, ◌&&◌, []};
ghost use Rattle.std.specs.Option.{option_copied};
ghost use Rattle.cell_merge.specs.Cell.{is_not_below};
ghost use Rattle.register_model.specs.Kept.{IsKeptRun, Judges};
ghost use Rattle.register_model.specs.Known.{is_none_or_written};

use crate::data::{ClientEvent, Key, Request};
use crate::known::{Acked, Sight, Standing, Standings, Written};
use base_ids::NoMemory;
use cell_merge::Cell;
use std::alloc::Global;
use std::cmp::Ordering;

/// What is kept of the events seen so far, which are a run.
#[derive(Drop)]
pub struct Seen {
    /// How each request stands.
    pub standings: Standings,
    /// The greatest acknowledged cell of each key.
    pub acked: Acked,
    /// The cells that were written.
    pub written: Written,
}

impl Seen {
    /// No event was seen.
    pub fn new(alloc: Global) -> Seen
        ensures { IsKeptRun [] result }
    {
        Seen {
            standings: Standings::new(alloc),
            acked: Acked::new(alloc),
            written: Written::new(alloc),
        }
    }

    /// Sees one event more: whether what was seen is a run with it too. After `false` or `NoMemory` nothing is said of
    /// what is kept.
    pub fn take(&mut self, event: &ClientEvent) -> Result<bool, NoMemory>
        ensures { Judges self.old event.now self.new result }
    {
        match event {
            ClientEvent::WriteBegun {
                request,
                key,
                cell,
                strength,
            } => self.begin_write(request, key, cell, *strength),
            ClientEvent::WriteAcked { request } => self.acknowledge(request),
            ClientEvent::ReadBegun {
                request,
                key,
                blind,
            } => self.begin_read(request, key, *blind),
            ClientEvent::ReadOk { request, cell } => self.end_read(request, cell),
            ClientEvent::Ended { request } => self.end(request),
        }
    }

    /// A write begins.
    fn begin_write(
        &mut self,
        request: &Request,
        key: &Key,
        cell: &Cell,
        strength: u8,
    ) -> Result<bool, NoMemory>
        ensures { Judges self.old (ClientEvent.WriteBegun request.now key.now cell.now strength) self.new result }
    {
        match self.standings.get(request) {
            Some(_) => Ok(false),
            None => {
                let standing = Standing::Writing {
                    key: *key,
                    cell: *cell,
                    strength,
                };
                self.standings.set(request, standing)?;
                self.written.add(key, cell)?;
                Ok(true)
            }
        }
    }

    /// A write is acknowledged.
    fn acknowledge(&mut self, request: &Request) -> Result<bool, NoMemory>
        ensures { Judges self.old (ClientEvent.WriteAcked request.now) self.new result }
    {
        match self.standings.get(request) {
            Some(
                Standing::Writing {
                    key,
                    cell,
                    strength,
                },
            ) => {
                self.acked.raise(key, *strength, cell)?;
                self.standings.end(request)?;
                Ok(true)
            }
            Some(Standing::Reading { .. }) => Ok(false),
            Some(Standing::Done) => Ok(false),
            None => Ok(false),
        }
    }

    /// A read begins.
    fn begin_read(&mut self, request: &Request, key: &Key, blind: u8) -> Result<bool, NoMemory>
        ensures { Judges self.old (ClientEvent.ReadBegun request.now key.now blind) self.new result }
    {
        match self.standings.get(request) {
            Some(_) => Ok(false),
            None => {
                let sight = Sight { key: *key, blind };
                let standing = Standing::Reading {
                    key: *key,
                    least: self.acked.get(&sight).copied(),
                };
                self.standings.set(request, standing)?;
                Ok(true)
            }
        }
    }

    /// A read returns.
    fn end_read(&mut self, request: &Request, cell: &Option<Cell>) -> Result<bool, NoMemory>
        ensures { Judges self.old (ClientEvent.ReadOk request.now cell.now) self.new result }
    {
        match self.standings.get(request) {
            Some(Standing::Reading { key, least }) => {
                if !self.may_return(key, least, cell) {
                    return Ok(false);
                }
                self.standings.end(request)?;
                Ok(true)
            }
            Some(Standing::Writing { .. }) => Ok(false),
            Some(Standing::Done) => Ok(false),
            None => Ok(false),
        }
    }

    /// A request ends with neither.
    fn end(&mut self, request: &Request) -> Result<bool, NoMemory>
        ensures { Judges self.old (ClientEvent.Ended request.now) self.new result }
    {
        match self.standings.get(request) {
            Some(Standing::Writing { .. }) => {
                self.standings.end(request)?;
                Ok(true)
            }
            Some(Standing::Reading { .. }) => {
                self.standings.end(request)?;
                Ok(true)
            }
            Some(Standing::Done) => Ok(false),
            None => Ok(false),
        }
    }

    /// Whether a read of the key may return this: no cell below `least`, and none or one that was written to the key.
    fn may_return(&self, key: &Key, least: &Option<Cell>, cell: &Option<Cell>) -> bool
        ensures { result ≡ (is_not_below cell.now least.now && is_none_or_written self.now.written key.now cell.now) }
    {
        is_not_below(cell, least) && self.is_none_or_written(key, cell)
    }

    /// Whether it is none or a cell that was written to the key.
    fn is_none_or_written(&self, key: &Key, cell: &Option<Cell>) -> bool
        ensures { result ≡ is_none_or_written self.now.written key.now cell.now }
    {
        match cell {
            Some(cell) => self.written.contains(key, cell),
            None => true,
        }
    }
}

/// Whether `a` is not below `b`: every cell is above none.
fn is_not_below(a: &Option<Cell>, b: &Option<Cell>) -> bool
    ensures { result ≡ is_not_below a.now b.now }
{
    match (a, b) {
        (Some(x), Some(y)) => Cell::compare(x, y).is_ge(),
        (None, Some(_)) => false,
        (_, None) => true,
    }
}
