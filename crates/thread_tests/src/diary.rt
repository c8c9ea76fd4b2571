//! A diary: a small world.
ghost use Rattle.std.specs.Prelude.{◌≡◌, [], IfOk};
ghost use Rattle.thread_tests.specs.Laws.{laws};
ghost use Rattle.thread_tests.specs.Diary.{meaning};
ghost use Rattle.thread_tests.specs.declared.diary.Line.TheVariants.{Say};

use base_ids::{Actor, Appended, HostId, LaneId, NoMemory, StateId, Version};
use book_rule::World;
use shared_value::Shared;
use std::alloc::Global;

/// An entry of a diary.
#[derive(Drop)]
pub enum Line {
    /// Anyone notes a number.
    Note(Actor, u64),
    /// A host moves so many versions on.
    Reach(HostId, u64),
    /// A lane begins at a version.
    Begin(LaneId, Version),
    /// A host says that nothing below a version is live.
    Quiet(HostId, Version),
    /// A topo proposes a number, and this becomes of it.
    Say(Actor, u64, Appended<u8>),
}

/// A world whose log is a list of numbers.
#[derive(Drop)]
pub struct Diary {
    /// What it starts from.
    pub opening: Shared<u64>,
    /// The numbers, the oldest first.
    pub log: Vec<Shared<u64>>,
    /// Whom its memory is asked of.
    pub alloc: Global,
}

impl Diary {
    /// A diary with an empty log.
    pub fn new(alloc: Global, opening: u64) -> Result<Diary, NoMemory>
        ensures { IfOk result (λ diary. diary.log.items ≡ []) }
    {
        let opening = Shared::new(alloc, opening)?;
        Ok(Diary {
            opening,
            log: Vec::new(alloc),
            alloc,
        })
    }
}

impl World for Diary {
    ghost use Rattle.std.specs.Prelude.{refl};

    type Opening = Shared<u64>;

    type Entry = Line;

    type Command = u64;

    type Rule = u8;

    type Message = u64;

    type Snapshot = u64;

    const ENTRIES: u64 = 20;

    const LOG: u64 = 2;

    ghost ENTRIES = { 20 };

    ghost LOG = { 2 };

    ghost meaning = { meaning };

    ghost limits = { (refl, refl) };

    ghost laws = { laws };

    fn opening(&self) -> Result<Shared<u64>, NoMemory> {
        self.opening.share()
    }

    fn log_len(&self) -> u64 {
        self.log.len() as u64
    }

    fn outcome(&self, read: StateId, command: &u64) -> Appended<u8> {
        let last = self.log.len() as u64;
        if read.0 != last {
            return Appended::Conflict {
                last: StateId(last),
            };
        }
        if *command == 0 {
            return Appended::Illegal { rule: 1 };
        }
        Appended::Accepted { index: last + 1 }
    }

    fn proposal(
        _alloc: Global,
        topo: Actor,
        command: u64,
        outcome: Appended<u8>,
    ) -> Result<Line, NoMemory>
        ensures { IfOk result (λ entry. entry ≡ Say topo command outcome) }
    {
        Ok(Line::Say(topo, command, outcome))
    }

    fn add(&mut self, entry: &Line) -> Result<(), NoMemory> {
        match entry {
            Line::Say(_, command, Appended::Accepted { .. }) => {
                let shared = Shared::new(self.alloc, *command)?;
                self.log.push(shared)?;
                Ok(())
            }
            _ => Ok(()),
        }
    }

    fn message_at(entry: &Line, out: u32) -> Result<Option<u64>, NoMemory> {
        match entry {
            Line::Note(_, text) => { if out == 0 { Ok(Some(*text)) } else { Ok(None) } }
            _ => Ok(None),
        }
    }

    fn command_at(&self, n: u64) -> Option<&Shared<u64>> {
        if n == 0 {
            return None;
        }
        self.log.get((n - 1) as usize)
    }

    fn snapshot_at(&self, _version: Version) -> Option<&Shared<u64>> {
        Some(&self.opening)
    }
}
