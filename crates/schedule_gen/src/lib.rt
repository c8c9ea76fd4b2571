//! Made schedules: the schedule text of a number, a large valid input.
#![tactic(auto)]

ghost use Rattle.std.specs.Prelude.{◌≡◌, IfOk};
ghost use Rattle.schedule_gen.specs.Schedule.{schedule_text};

mod course;
mod draws;
mod lines;

use base_ids::NoMemory;
use course::Course;
use std::alloc::Global;

/// The lines before the first round: five hosts with a lane each, and a table of four tablets with three replicas.
const HEADER: &str = "tablets 1
hosts 5
lanes 1
table 1 2 0:0 1:0 2:0
tablet 1 1 1:0 2:0 3:0
tablet 1 2 2:0 3:0 4:0
tablet 1 3 3:0 4:0 0:0
go
";

/// How many rounds a schedule has.
const ROUNDS: u16 = 1000;

/// The schedule of a number: a header, and a thousand rounds drawn from the generator of that number, each of which
/// is a write, a read, a deletion or a step of a tablet's move. `NoMemory` comes where memory for it is refused.
/// Source: this project's own.
pub fn schedule(alloc: Global, n: u64) -> Result<Vec<u8>, NoMemory>
    ensures { IfOk result (λ text. text.items ≡ schedule_text n) }
{
    let mut text = String::from_str(alloc, HEADER)?;
    let mut course = Course::new(n);
    for done in 0..ROUNDS {
        let lines = course.next(alloc, done + 1)?;
        text.push_str(lines.as_str())?;
    }
    Ok(text.into_bytes())
}
