//! Pulling a range from another host.
ghost use Rattle.std.specs.Prelude.{◌≡◌, ◌↔◌, ◌≤◌, length, IsTrue, IsNone, IfSome};
ghost use Rattle.base_ids.specs.declared.ids.TableId.{TableId};
ghost use Rattle.replica_store.specs.Cells.{IsOrdered};
ghost use Rattle.stream_core.specs.Pulls.{new_pull, next_ask, is_next, pull_after, cells_after, same_after, last_token};

use crate::data::{ChunkAsk, ChunkMsg};
use base_ids::{HostId, Session, TableId};
use replica_store::{Store, Stored, put_all};
use std::marker::Model;
use token_ring::{Token, TokenRange};

/// What became of a chunk.
#[derive(Clone, Copy, Debug, PartialEq, Eq)]
pub enum Took {
    /// Its cells were stored, and the pull goes on.
    More,
    /// Its cells were stored, and the pull is done.
    Done,
    /// It is not the pull's next one, and nothing was changed.
    Foreign,
}

/// A pull of a range, which asks for one chunk after the other.
#[derive(Drop)]
pub struct Pull {
    session: Session,
    table: TableId,
    range: TokenRange,
    by: HostId,
    from: HostId,
    after: Option<Token>,
    done: bool,
}

impl Model for Pull {
    ghost use Rattle.stream_core.specs.Pulls.{Pulling};

    ghost Value = { Pulling };

    ghost view = { λ p. record {
      session = p.session;
      table = p.table;
      range = p.range;
      by = p.by;
      from = p.from;
      after = p.after;
      done = p.done;
    } };
}

impl Pull {
    ghost use Rattle.stream_core.specs.Took.{took_of};

    /// A pull by host `by` of a range of a table from host `from`. It has nothing yet.
    pub fn new(
        session: Session,
        table: TableId,
        range: TokenRange,
        by: HostId,
        from: HostId,
    ) -> Pull
        ensures { result ≡ new_pull session table range by from }
    {
        Pull {
            session,
            table,
            range,
            by,
            from,
            after: None,
            done: false,
        }
    }

    /// Whether the pull has all of its range.
    pub fn is_done(&self) -> bool
        ensures { result ≡ self.now.done }
    {
        self.done
    }

    /// An equal pull.
    pub fn copied(&self) -> Pull
        ensures { result ≡ self.now }
    {
        Pull {
            session: self.session,
            table: self.table,
            range: self.range,
            by: self.by,
            from: self.from,
            after: self.after,
            done: self.done,
        }
    }

    /// The ask for what is behind the last token that the pull has.
    pub fn ask(&self) -> ChunkAsk
        ensures { result ≡ next_ask self.now }
    {
        ChunkAsk {
            session: self.session,
            table: self.table,
            range: self.range,
            after: self.after,
            by: self.by,
            to: self.from,
        }
    }

    /// What to ask for next. `None` comes exactly where the pull is done.
    pub fn next_ask(&self) -> Option<ChunkAsk>
        ensures none { IsNone result ↔ IsTrue self.now.done }
        ensures ask { IfSome result (λ ask. ask ≡ next_ask self.now) }
    {
        if self.done { None } else { Some(self.ask()) }
    }

    /// What would become of a chunk: `Foreign` exactly where its session or `after` is not the pull's or the pull is
    /// done, else `Done` exactly where it is the last one.
    pub fn judge(&self, chunk: &ChunkMsg) -> Took
        ensures { result ≡ took_of self.now chunk.now }
    {
        if chunk.session.0 != self.session.0 || !is_same(chunk.after, self.after) || self.done {
            Took::Foreign
        } else if chunk.more {
            Took::More
        } else {
            Took::Done
        }
    }

    /// Stores the cells of a chunk in the pull's table, and goes on behind them. A foreign chunk changes nothing.
    /// Takes no memory.
    pub fn take_chunk<S: Store>(&mut self, store: &mut S, chunk: &ChunkMsg) -> Took
        requires { length chunk.now.cells ≤ S.spare store.old }
        ensures took { result ≡ took_of self.old chunk.now }
        ensures pull { self.new ≡ pull_after self.old chunk.now }
        ensures cells { IsOrdered (S.cells store.old)
            → S.cells store.new ≡ cells_after (S.cells store.old) self.old chunk.now }
        ensures ordered { IsOrdered (S.cells store.old) → IsOrdered (S.cells store.new) }
        ensures foreign { result ≡ Took.Foreign → store.new ≡ store.old }
        ensures same_runs { (t : TableId) → S.runs store.new t ≡ S.runs store.old t }
    {
        let took = self.judge(chunk);
        if took != Took::Foreign {
            put_all(store, self.table, chunk.cells.as_slice());
            self.after = last_token(self.after, chunk.cells.as_slice());
            self.done = !chunk.more;
        }
        took
    }
}

/// Whether two cursors are one.
fn is_same(a: Option<Token>, b: Option<Token>) -> bool
    ensures { result ≡ same_after a b }
{
    match (a, b) {
        (None, None) => true,
        (Some(a), Some(b)) => a == b,
        _ => false,
    }
}

/// The last token of the cells, or `after` where there are none.
fn last_token(after: Option<Token>, cells: &[Stored]) -> Option<Token>
    ensures { result ≡ last_token after cells.now }
{
    match cells.last() {
        Some(stored) => Some(stored.token),
        None => after,
    }
}
