//! A list that waits for the outputs of a next entry.
ghost use Rattle.std.specs.Prelude.{◌≡◌, ◌≤◌, [], IfOk};
ghost use Rattle.std.specs.Vec.{vec_capacity};

use base_ids::{Items, NoMemory};
use cluster_history::{Message, Output, OutputList};
use std::alloc::Global;
use std::mem;

/// A list without outputs, with the room that it has. An event without outputs gives back what was taken for them, so
/// that the next event need not ask for memory. No contract tells what it holds.
#[derive(Drop)]
pub(crate) struct Spare {
    list: Vec<Output>,
}

impl Spare {
    /// A list without room, which takes no memory.
    pub(crate) fn new(alloc: Global) -> Spare {
        Spare {
            list: Vec::new(alloc),
        }
    }

    /// A list without outputs that has room for so many.
    pub(crate) fn take(&mut self, alloc: Global, most: usize) -> Result<Vec<Output>, NoMemory>
        ensures empty { IfOk result (λ outputs. outputs.items ≡ []) }
        ensures room { IfOk result (λ outputs. most ≤ vec_capacity outputs) }
    {
        let _inside: Option<&Message> = None;
        let mut list = mem::replace(&mut self.list, Vec::new(alloc));
        list.clear();
        if list.capacity() >= most {
            Ok(list)
        } else {
            Ok(Vec::with_capacity(alloc, most)?)
        }
    }

    /// The outputs as an entry keeps them: where there are none, their list is the spare one, and no memory is kept.
    pub(crate) fn keep(&mut self, alloc: Global, outputs: Vec<Output>) -> OutputList
        ensures { result ≡ outputs.items }
    {
        let _inside: Option<&Message> = None;
        if outputs.is_empty() {
            self.list = outputs;
            Items::new(alloc)
        } else {
            Items::from_vec(outputs)
        }
    }
}
