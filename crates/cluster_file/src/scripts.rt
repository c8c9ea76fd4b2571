// Scripts: what lanes do.
ghost use Rattle.std.specs.Prelude.{◌≡◌, [], codes};
ghost use Rattle.std.specs.List.{list_any};
ghost use Rattle.serde_json.specs.View.{view, items_view};
ghost use Rattle.text_grammar.specs.Cuts.{words_of};
ghost use Rattle.text_grammar.specs.Readings.{reading as read_line};
ghost use Rattle.json_forms.specs.Forms.{Line, Each, Member, MemberOr};
ghost use Rattle.json_forms.specs.Readings.{reading, read_each};
ghost use Rattle.json_forms.specs.Results.{Gives};
ghost use Rattle.run_plan.specs.Fits.{is_of};
ghost use Rattle.cluster_file.specs.Plans.{script_lane, levelled, one_operation, script};

use crate::frame::Frame;
use base_ids::{Items, LaneId};
use cluster_history::Operation;
use json_forms::{
    Fault as FaultIn, FileRule, ReadError, here, list, need, object, spelled, text, under,
    under_item,
};
use run_plan::{OperationList, Script, ScriptList};
use schedule_lines::{operation_at, with_level};
use schedule_words::{Counts, Format, lane, level_in};
use serde_json::Value;
use std::alloc::Global;
use text_grammar::{Fault, TextRule, is_end, next_word, no_word};

/// Whether this is the script of the lane.
fn is_of(lane: LaneId, script: &Script) -> bool
    ensures { result ≡ is_of lane script.now }
{
    script.lane.host == lane.host && script.lane.lane == lane.lane
}

/// Whether the lane has a script already.
fn is_taken(earlier: &[Script], lane: LaneId) -> bool
    ensures { result ≡ list_any (is_of lane) earlier.now }
{
    earlier.iter().any(|script| is_of(lane, script))
}

/// A lane behind others. One that stands there already is `BadValue`.
#[tactic(auto, unfolding(crate::specs::Plans::script_lane))]
fn script_lane(
    alloc: Global,
    frame: &Frame,
    earlier: &[Script],
    value: &Value,
) -> Result<LaneId, ReadError>
    ensures { Gives (λ l. l) result (reading (script_lane frame.now earlier.now) (view value.now)) }
{
    let word = text(alloc, value)?;
    let counts = Counts {
        format: frame.format,
        hosts: frame.hosts,
        lanes: frame.lanes,
    };
    let lane = spelled(alloc, lane(&counts, word))?;
    if is_taken(earlier, lane) {
        Err(here(alloc, FaultIn::Refused(FileRule::BadValue)))
    } else {
        Ok(lane)
    }
}

/// The operation at the level that ends its text.
#[tactic(auto, unfolding(crate::specs::Plans::levelled))]
fn levelled(format: Format, operation: Operation, words: &[u8]) -> Result<Operation, Fault>
    ensures { result ≡ read_line (levelled format operation) (words_of words.now) }
{
    let (word, words) = next_word(words)?;
    let Some(level) = level_in(format, word) else {
        return Err(Fault::Refused(TextRule::BadWord));
    };
    no_word(words)?;
    Ok(with_level(level, operation))
}

/// The operation that a text says, with a level or without. The first format has no levels.
#[tactic(auto, using(crate::proofs::OperationLemmas::operation_then))]
fn operation_in(format: Format, words: &[u8]) -> Result<Operation, Fault>
    ensures { result ≡ read_line (one_operation format) (words_of words.now) }
{
    let (operation, behind) = match operation_at(words) {
        Ok(found) => found,
        Err(fault) => return Err(fault),
    };
    if is_end(behind) {
        return Ok(operation);
    }
    levelled(format, operation, behind)
}

/// An operation.
fn one_operation(alloc: Global, format: Format, value: &Value) -> Result<Operation, ReadError>
    ensures { Gives (λ op. op) result (reading (Line (one_operation format)) (view value.now)) }
{
    let words = text(alloc, value)?;
    spelled(alloc, operation_in(format, words))
}

/// The operations in these items.
fn operations_in(alloc: Global, format: Format, items: &[Value]) -> Result<OperationList, ReadError>
    ensures { Gives (λ list. list) result
        (read_each (λ earlier e. reading (Line (one_operation format)) e) [] (items_view items.now)) }
{
    let mut operations: OperationList = Items::new(alloc);
    operations.reserve(items.len())?;
    let mut left = items;
    'items: while let [first, behind @ ..] = left {
        let place = operations.as_slice().len();
        let operation = under_item(alloc, place, one_operation(alloc, format, first))?;
        operations.push(operation)?;
        left = behind;
    }
    Ok(operations)
}

/// Operations.
fn operations(alloc: Global, format: Format, value: &Value) -> Result<OperationList, ReadError>
    ensures { Gives (λ list. list) result (reading (Each (λ _. Line (one_operation format))) (view value.now)) }
{
    let items = list(alloc, value)?;
    operations_in(alloc, format, items)
}

/// A script behind others.
#[tactic(auto, unfolding(crate::specs::Plans::script))]
fn script(
    alloc: Global,
    frame: &Frame,
    earlier: &[Script],
    value: &Value,
) -> Result<Script, ReadError>
    ensures { Gives (λ s. s) result (reading (script frame.now earlier.now) (view value.now)) }
{
    object(alloc, value)?;
    let member = need(alloc, "lane", value)?;
    let lane = under(alloc, "lane", script_lane(alloc, frame, earlier, member))?;
    let member = need(alloc, "ops", value)?;
    let ops = under(alloc, "ops", operations(alloc, frame.format, member))?;
    Ok(Script { lane, ops })
}

/// The scripts in these items.
fn scripts_in(alloc: Global, frame: &Frame, items: &[Value]) -> Result<ScriptList, ReadError>
    ensures { Gives (λ list. list) result
        (read_each (λ earlier e. reading (script frame.now earlier) e) [] (items_view items.now)) }
{
    let mut scripts: ScriptList = Items::new(alloc);
    let mut left = items;
    'items: while let [first, behind @ ..] = left {
        let place = scripts.as_slice().len();
        let read = script(alloc, frame, scripts.as_slice(), first);
        let script = under_item(alloc, place, read)?;
        scripts.push(script)?;
        left = behind;
    }
    Ok(scripts)
}

/// Scripts.
fn scripts(alloc: Global, frame: &Frame, value: &Value) -> Result<ScriptList, ReadError>
    ensures { Gives (λ list. list) result (reading (Each (script frame.now)) (view value.now)) }
{
    let items = list(alloc, value)?;
    scripts_in(alloc, frame, items)
}

/// The member `scripts`, none where it is left out.
pub(crate) fn scripts_member(
    alloc: Global,
    frame: &Frame,
    value: &Value,
) -> Result<ScriptList, ReadError>
    ensures { Gives (λ list. list) result
        (reading (MemberOr (codes "scripts") [] (Each (script frame.now))) (view value.now)) }
{
    match value.get("scripts") {
        None => Ok(Items::new(alloc)),
        Some(member) => {
            let list = under(alloc, "scripts", scripts(alloc, frame, member))?;
            Ok(list)
        }
    }
}
