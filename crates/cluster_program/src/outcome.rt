//! What a call of the program leaves.
ghost use Rattle.std.specs.Prelude.{◌≡◌};
ghost use Rattle.cluster_program.specs.Endings.{no_journal};
ghost use Rattle.cluster_program.specs.Status.{status_number, status_after};

use crate::status::Status;
use base_ids::Items;
use cluster_history::{Journal, Opening};
use fault_io::WriteFault;
use std::alloc::Global;

/// How a call of the program ended.
#[derive(Debug, Drop)]
pub struct Outcome {
    /// The status with which the process ends.
    pub status: u8,
    /// What happened. Where no opening was reached, it has no hosts and no entries.
    pub journal: Journal,
}

/// The journal where no opening was reached.
pub(crate) fn no_journal(alloc: Global) -> Journal
    ensures { result ≡ no_journal }
{
    Journal {
        opening: Opening {
            hosts: 0,
            lanes: 0,
            shards: 0,
            members: Items::new(alloc),
            tables: Items::new(alloc),
        },
        entries: Items::new(alloc),
    }
}

/// The outcome where memory was refused.
pub(crate) fn starved(journal: Journal) -> Outcome
    ensures { result ≡ record { status = status_number Status.NoMemory; journal = journal } }
{
    Outcome {
        status: Status::NoMemory.number(),
        journal,
    }
}

/// The outcome after the last write.
pub(crate) fn ended(status: Status, journal: Journal, written: Result<(), WriteFault>) -> Outcome
    ensures { result ≡ record { status = status_number (status_after status written); journal = journal } }
{
    let status = match written {
        Ok(()) => status,
        Err(WriteFault) => Status::WriteFault,
    };
    Outcome {
        status: status.number(),
        journal,
    }
}
