// Reading a document.
ghost use Rattle.std.specs.Prelude.{◌≡◌, IfOk};
ghost use Rattle.json_forms.specs.Rules.{here};
ghost use Rattle.serde_json.specs.View.{view};
ghost use Rattle.json_forms.specs.Readings.{reading};
ghost use Rattle.json_forms.specs.Results.{Gives};
ghost use Rattle.json_forms.specs.declared.faults.FileRule.TheVariants.{NotJson};
ghost use Rattle.json_forms.specs.declared.faults.Fault.TheVariants.{Refused as RefusedIn};
ghost use Rattle.cluster_history.specs.Openings.{IsValidOpening};
ghost use Rattle.run_plan.specs.Fits.{IsPlanFor};
ghost use Rattle.cluster_file.specs.Documents.{plan, document, pointer_of, Names, IsTold, SaysOf};

use crate::errors::FileError;
use crate::frame::{Frame, format_of, frame_in};
use crate::moves::moves_member;
use crate::pace::{Pace, pace_in};
use crate::scripts::scripts_member;
use crate::storm::storm_member;
use crate::tables::tables_member;
use base_ids::{Items, NoMemory, Text};
use cluster_history::Opening;
use json_forms::{Fault, FaultAt, FileRule, ReadError, number_member, object};
use run_plan::RunPlan;
use serde_json::Value;
use std::alloc::Global;

/// What the cluster does.
#[tactic(auto, unfolding(crate::specs::Documents::plan))]
fn plan(alloc: Global, frame: &Frame, pace: &Pace, value: &Value) -> Result<RunPlan, ReadError>
    ensures { Gives (λ plan. plan) result (reading (plan frame.now pace.now) (view value.now)) }
{
    let scripts = scripts_member(alloc, frame, value)?;
    let moves = moves_member(alloc, frame, value)?;
    let storm = storm_member(alloc, value)?;
    Ok(RunPlan {
        workers: pace.workers,
        patience: pace.patience,
        drain: pace.drain,
        scripts,
        moves,
        storm,
    })
}

/// What a document says.
#[tactic(auto, unfolding(crate::specs::Documents::document))]
fn document(alloc: Global, value: &Value) -> Result<(Opening, RunPlan), ReadError>
    ensures { Gives (λ x. x) result (reading document (view value.now)) }
{
    object(alloc, value)?;
    let number = number_member(alloc, "tablets", 1, 2, value)?;
    let frame = frame_in(alloc, format_of(number), value)?;
    let pace = pace_in(alloc, value)?;
    let tables = tables_member(alloc, &frame, value)?;
    let plan = plan(alloc, &frame, &pace, value)?;
    let opening = Opening {
        hosts: frame.hosts,
        lanes: frame.lanes,
        shards: frame.shards,
        members: frame.members,
        tables,
    };
    Ok((opening, plan))
}

/// The path as a JSON pointer; a slash for the whole document.
fn pointer_of(alloc: Global, path: Text) -> Result<Text, NoMemory>
    ensures { IfOk result (λ text. text ≡ pointer_of path) }
{
    if path.as_slice().is_empty() {
        let slash = Vec::from_slice(alloc, b"/")?;
        Ok(Items::from_vec(slash))
    } else {
        Ok(path)
    }
}

/// The error that names a fault.
fn named(alloc: Global, at: FaultAt) -> FileError
    ensures { Names at result }
{
    match at.fault {
        Fault::Limit(name) => FileError::Limit { name },
        Fault::Refused(rule) => match pointer_of(alloc, at.path) {
            Err(NoMemory) => FileError::NoMemory,
            Ok(path) => FileError::Refused { path, rule },
        },
    }
}

/// The error of bytes that are no JSON.
fn not_json(alloc: Global) -> FileError
    ensures { Names (here (RefusedIn NotJson)) result }
{
    named(
        alloc,
        FaultAt {
            path: Items::new(alloc),
            fault: Fault::Refused(FileRule::NotJson),
        },
    )
}

/// What the value of a document says, or the error that names its first fault.
#[tactic(auto, using(crate::proofs::DocumentLaws::named_so))]
fn said(alloc: Global, value: &Value) -> Result<(Opening, RunPlan), FileError>
    ensures { SaysOf (view value.now) result }
{
    match document(alloc, value) {
        Ok(said) => Ok(said),
        Err(ReadError::NoMemory) => Err(FileError::NoMemory),
        Err(ReadError::Fault(at)) => Err(named(alloc, at)),
    }
}

/// What bytes say, or why they are no document.
#[tactic(auto, using(crate::proofs::DocumentLaws::no_json_so, crate::proofs::DocumentLaws::all_so))]
fn read_document(alloc: Global, bytes: &[u8]) -> Result<(Opening, RunPlan), FileError>
    ensures { IsTold bytes.now result }
{
    match Value::from_slice(alloc, bytes) {
        Err(error) => {
            if error.is_memory() {
                Err(FileError::NoMemory)
            } else {
                Err(not_json(alloc))
            }
        }
        Ok(value) => said(alloc, &value),
    }
}

/// The cluster that a document says, and the plan of its run. `Refused` names the first value at fault and the rule that
/// it breaks, and `Limit` the limit that the first value at fault passes; a document that says a plan is never answered
/// so. The opening is a valid one, and the plan fits it: a machine and a run may be made of them.
///
/// Reads each byte once, and each value of the document once.
#[tactic(auto, using(crate::proofs::ValidLemmas::told_valid, crate::proofs::PlanLemmas::told_fitting))]
pub fn parse(alloc: Global, bytes: &[u8]) -> Result<(Opening, RunPlan), FileError>
    ensures told { IsTold bytes.now result }
    ensures valid { IfOk result (λ said. IsValidOpening said.0) }
    ensures fits { IfOk result (λ said. IsPlanFor said.0 said.1) }
{
    read_document(alloc, bytes)
}
