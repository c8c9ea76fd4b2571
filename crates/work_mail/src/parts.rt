//! Parts that work side by side.
ghost use Rattle.std.specs.Prelude.{◌<◌, All, length};
ghost use Rattle.work_mail.specs.Parts.{ChangeBy};

use std::sync::Wait;
use std::thread;
use std::thread::Threads;

/// Where a worker may be held back. A worker calls it with its own number at the start of each of its rounds.
pub trait Gate {
    /// Waits until the worker may go on.
    fn pass<R: Wait>(&self, rt: &R, point: u32);
}

/// What works beside others, on a thread of its own. It says what it needs, and what its work makes of it.
pub trait Part: Send {
    ghost ready: { Self → Type 0 };

    ghost done: { Self → Self → Type 0 };

    /// Works to its end.
    fn work<R: Wait>(&mut self, rt: &R)
        requires { ready self.old }
        ensures { done self.old self.new };
}

/// Lets each part work once, on a thread of its own, and returns when all have returned. Where no thread can be started
/// the parts work one after another.
pub fn run_parts<P: Part, R: Threads + Wait + Sync>(rt: &R, parts: &mut [P])
    requires some { 0 < length parts.old }
    requires ready { All P.ready parts.old }
    ensures { ChangeBy P.done parts.old parts.new }
{
    let many = parts.len();
    thread::for_each_mut(
        rt,
        parts,
        many,
        &|_, part: &mut P|
            requires { P.ready part.old }
            ensures { P.done part.old part.new }
        { part.work(rt) },
    );
}
