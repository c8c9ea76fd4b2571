//! What the process hands to the program, and what it gets back.
ghost use Rattle.std.specs.Prelude.{◌≡◌, IfOk, map, drop, string_bytes};
ghost use Rattle.std.specs.Process.{exit_status};
ghost use Rattle.std.specs.Vec.Iter.{into_iter_items};

use base_ids::{Items, NoMemory};
use cluster_program::{Outcome, Words};
use std::alloc::Global;
use std::env::Args;
use std::process::ExitCode;

/// The words after the first argument, which is the program's name. `NoMemory` comes where memory for them is refused.
pub fn words_after_name(alloc: Global, mut args: Args) -> Result<Words, NoMemory>
    ensures { IfOk result (λ words. words ≡ map string_bytes (drop 1 (into_iter_items args))) }
{
    let mut words = Items::new(alloc);
    let _name = args.next();
    'words: while let Some(word) = args.next() {
        words.push(Items::from_vec(word.into_bytes()))?;
    }
    Ok(words)
}

/// The code with which the process ends.
pub fn exit_code(outcome: &Outcome) -> ExitCode
    ensures { exit_status result ≡ outcome.now.status }
{
    ExitCode::from(outcome.status)
}
