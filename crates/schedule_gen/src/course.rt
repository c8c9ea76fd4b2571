// What a schedule's rounds know of one another.
ghost use Rattle.std.specs.Prelude.{◌≡◌, ◌<◌, ◌+◌, ◌^◌, IfOk, OnOk, IfSome, find};
ghost use Rattle.std.specs.String.{string_bytes};
ghost use Rattle.schedule_gen.specs.Moves.{next_forward, is_absent, least_absent};
ghost use Rattle.schedule_gen.specs.Course.{action_of, course_hosts, opening_course, round_text, next_course, start_text, course_after_start, advance_text, course_after_advance};

use crate::draws::{draw, generator_of};
use crate::lines::{advance_lines, delete_line, read_line, start_line, write_line};
use base_ids::NoMemory;
use rand_pcg::Lcg64Xsh32;
use stage_graph::Stage;
use std::alloc::Global;

/// How many tablets the table has.
const TABLETS: u32 = 4;

/// The hosts, by their numbers.
const ALL_HOSTS: [u16; 5] = [0, 1, 2, 3, 4];

/// What is drawn for a round.
#[derive(Clone, Copy)]
pub enum Action {
    /// A write of a live cell.
    Write,
    /// A read.
    Read,
    /// A write of a dead cell.
    Delete,
    /// A step of a tablet's move, or the start of one where none goes on.
    Step,
}

/// A tablet's move that goes on.
#[derive(Clone, Copy)]
pub struct TabletMove {
    /// The number of the tablet.
    pub tablet: u32,
    /// The host that comes in the place of the first of the tablet's replicas.
    pub pending: u16,
    /// The session of the move.
    pub session: u32,
    /// The stage at which it is.
    pub stage: Stage,
}

/// What goes on from round to round.
#[derive(Drop)]
pub struct Course {
    /// The generator that numbers are drawn from.
    pub generator: Lcg64Xsh32,
    /// How many `step` lines stand so far.
    pub steps: u32,
    /// The hosts of each tablet's replicas, in order.
    pub replicas: [[u16; 3]; 4],
    /// The move that goes on.
    pub moving: Option<TabletMove>,
}

impl Course {
    /// Before the first round.
    pub fn new(n: u64) -> Course
        ensures { result ≡ opening_course n }
    {
        Course {
            generator: generator_of(n),
            steps: 0,
            replicas: [[0, 1, 2], [1, 2, 3], [2, 3, 4], [3, 4, 0]],
            moving: None,
        }
    }

    /// The text of the next round, which is round `round` from 1. After `NoMemory` nothing is said of the course.
    pub fn next(&mut self, alloc: Global, round: u16) -> Result<String, NoMemory>
        requires steps { self.old.steps + 1 < 2 ^ 32 }
        requires tablet { IfSome self.old.moving (λ moving. moving.tablet < 4) }
        ensures text { IfOk result (λ text. string_bytes text ≡ round_text round self.old) }
        ensures after { OnOk result (self.new ≡ next_course self.old) }
    {
        match action_of(draw(&mut self.generator, 8)) {
            Action::Write => write_line(alloc, round, &mut self.generator),
            Action::Read => read_line(alloc, &mut self.generator),
            Action::Delete => delete_line(alloc, round, &mut self.generator),
            Action::Step => match self.moving {
                Some(moving) => self.advance(alloc, moving),
                None => self.start(alloc),
            },
        }
    }

    /// The hosts of a tablet's replicas.
    fn hosts_of(&self, tablet: u32) -> [u16; 3]
        requires { tablet < 4 }
        ensures { result ≡ course_hosts self.now tablet }
    {
        self.replicas[tablet as usize]
    }

    /// Starts a move of a drawn tablet.
    fn start(&mut self, alloc: Global) -> Result<String, NoMemory>
        requires steps { self.old.steps + 1 < 2 ^ 32 }
        ensures text { IfOk result (λ text. string_bytes text ≡ start_text self.old) }
        ensures after { self.new ≡ course_after_start self.old }
    {
        let tablet = draw(&mut self.generator, TABLETS);
        let hosts = self.hosts_of(tablet);
        let pending = least_absent(&hosts);
        self.steps += 1;
        self.moving = Some(TabletMove {
            tablet,
            pending,
            session: self.steps,
            stage: Stage::AllowWriteBothReadOld,
        });
        start_line(alloc, tablet, hosts[0], pending)
    }

    /// Goes on with the move, or ends it.
    fn advance(&mut self, alloc: Global, moving: TabletMove) -> Result<String, NoMemory>
        requires steps { self.old.steps + 1 < 2 ^ 32 }
        requires tablet { moving.tablet < 4 }
        ensures text { IfOk result (λ text. string_bytes text ≡ advance_text moving) }
        ensures after { self.new ≡ course_after_advance moving (next_forward moving.stage) self.old }
    {
        let to = next_forward(moving.stage);
        self.steps += 1;
        match to {
            Some(stage) => {
                self.moving = Some(TabletMove {
                    tablet: moving.tablet,
                    pending: moving.pending,
                    session: moving.session,
                    stage,
                });
            }
            None => {
                self.moving = None;
                self.replicas[moving.tablet as usize][0] = moving.pending;
            }
        }
        advance_lines(alloc, moving.session, to)
    }
}

/// What a draw below 8 stands for.
fn action_of(a: u32) -> Action
    requires { a < 8 }
    ensures { result ≡ action_of a }
{
    match a {
        0..=2 => Action::Write,
        3..=5 => Action::Read,
        6 => Action::Delete,
        _ => Action::Step,
    }
}

/// The next stage of the way forward. `None` at its end, and at the stages of the way back.
fn next_forward(stage: Stage) -> Option<Stage>
    ensures { result ≡ next_forward stage }
{
    match stage {
        Stage::AllowWriteBothReadOld => Some(Stage::WriteBothReadOld),
        Stage::WriteBothReadOld => Some(Stage::Streaming),
        Stage::Streaming => Some(Stage::WriteBothReadNew),
        Stage::WriteBothReadNew => Some(Stage::UseNew),
        Stage::UseNew => Some(Stage::Cleanup),
        Stage::Cleanup => Some(Stage::EndMigration),
        Stage::EndMigration => None,
        Stage::FallbackCleanup => None,
        Stage::CleanupTarget => None,
        Stage::RevertMigration => None,
    }
}

/// The least host that is not among these. 0 where each is.
fn least_absent(hosts: &[u16]) -> u16
    ensures { result ≡ least_absent hosts.now }
{
    first_absent(&ALL_HOSTS, hosts).unwrap_or(0)
}

/// The first of all these hosts that is not among the others.
fn first_absent(all: &[u16], hosts: &[u16]) -> Option<u16>
    ensures { result ≡ find (is_absent hosts.now) all.now }
{
    all.iter().copied().find(|host| is_absent(hosts, *host))
}

/// Whether the host is not among these.
fn is_absent(hosts: &[u16], host: u16) -> bool
    ensures { result ≡ is_absent hosts.now host }
{
    !hosts.contains(&host)
}
