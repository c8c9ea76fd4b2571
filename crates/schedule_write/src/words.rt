// The words that lines are made of, each of which is added behind others with a space before it.
ghost use Rattle.std.specs.Fmt.{decimal, signed_decimal};
ghost use Rattle.std.specs.Prelude.{◌≡◌, ◌++◌, ◌∷◌, [], OnOk};
ghost use Rattle.schedule_words.specs.Texts.{cell_text};
ghost use Rattle.schedule_write.specs.Words.{spaced_words, spelt_host, spelt_lane, replica_word, replica_words, reference_word, spelt_target, spelt_level, spelt_resize};

use base_ids::{HostId, LaneId, MsgRef, NoMemory, Replica};
use cell_merge::Cell;
use schedule_words::cell_text;
use stage_graph::{Level, Stage};
use std::alloc::Global;
use topo_state::ResizeKind;

/// Adds a word.
pub(crate) fn word(text: &mut Vec<u8>, word: &str) -> Result<(), NoMemory>
    ensures { OnOk result (text.new.items ≡ text.old.items ++ spaced_words (word.now ∷ [])) }
{
    text.push(b' ')?;
    text.extend_from_slice(word.as_bytes())?;
    Ok(())
}

/// Adds a number.
pub(crate) fn number(text: &mut Vec<u8>, number: u64) -> Result<(), NoMemory>
    ensures { OnOk result (text.new.items ≡ text.old.items ++ spaced_words (decimal number ∷ [])) }
{
    let mut buffer = itoa::Buffer::new();
    word(text, buffer.format(number))
}

/// Adds a number with a sign.
pub(crate) fn signed(text: &mut Vec<u8>, number: i64) -> Result<(), NoMemory>
    ensures { OnOk result (text.new.items ≡ text.old.items ++ spaced_words (signed_decimal number ∷ [])) }
{
    let mut buffer = itoa::Buffer::new();
    word(text, buffer.format(number))
}

/// Adds two numbers with a byte between them, as one word.
fn pair(text: &mut Vec<u8>, first: u64, separator: u8, second: u64) -> Result<(), NoMemory>
    ensures { OnOk result
        (text.new.items ≡ text.old.items ++ spaced_words ((decimal first ++ separator ∷ decimal second) ∷ [])) }
{
    let mut buffer = itoa::Buffer::new();
    number(text, first)?;
    text.push(separator)?;
    text.extend_from_slice(buffer.format(second).as_bytes())?;
    Ok(())
}

/// Adds a host.
pub(crate) fn host(text: &mut Vec<u8>, host: HostId) -> Result<(), NoMemory>
    ensures { OnOk result (text.new.items ≡ text.old.items ++ spaced_words (spelt_host host ∷ [])) }
{
    number(text, u64::from(host.0))
}

/// Adds a lane.
pub(crate) fn lane(text: &mut Vec<u8>, lane: LaneId) -> Result<(), NoMemory>
    ensures { OnOk result (text.new.items ≡ text.old.items ++ spaced_words (spelt_lane lane ∷ [])) }
{
    pair(text, u64::from(lane.host.0), b'.', u64::from(lane.lane))
}

/// Adds a replica.
pub(crate) fn replica(text: &mut Vec<u8>, replica: Replica) -> Result<(), NoMemory>
    ensures { OnOk result (text.new.items ≡ text.old.items ++ spaced_words (replica_word replica ∷ [])) }
{
    let shard = u64::from(replica.shard.0);
    pair(text, u64::from(replica.host.0), b':', shard)
}

/// Adds replicas in order.
pub(crate) fn replicas(text: &mut Vec<u8>, replicas: &[Replica]) -> Result<(), NoMemory>
    ensures { OnOk result (text.new.items ≡ text.old.items ++ spaced_words (replica_words replicas.now)) }
{
    for one in replicas {
        replica(text, *one)?;
    }
    Ok(())
}

/// Adds a reference to a message.
pub(crate) fn reference(text: &mut Vec<u8>, at: MsgRef) -> Result<(), NoMemory>
    ensures { OnOk result (text.new.items ≡ text.old.items ++ spaced_words (reference_word at ∷ [])) }
{
    pair(text, at.event, b'.', u64::from(at.out))
}

/// Adds a cell.
pub(crate) fn cell(alloc: Global, text: &mut Vec<u8>, cell: &Cell) -> Result<(), NoMemory>
    ensures { OnOk result (text.new.items ≡ text.old.items ++ spaced_words (cell_text cell.now ∷ [])) }
{
    let spelt = cell_text(alloc, cell)?;
    word(text, spelt.as_str())
}

/// The word of a stage, or the one that ends a transition.
pub(crate) fn target_word(to: Option<Stage>) -> &'static str
    ensures { result.now ≡ spelt_target to }
{
    match to {
        Some(stage) => stage.word(),
        None => "none",
    }
}

/// The word of a level.
pub(crate) fn level_word(level: Level) -> &'static str
    ensures { result.now ≡ spelt_level level }
{
    match level {
        Level::One => "one",
        Level::Two => "two",
        Level::Three => "three",
        Level::Quorum => "quorum",
        Level::All => "all",
    }
}

/// The word of a decision to resize.
pub(crate) fn resize_word(kind: ResizeKind) -> &'static str
    ensures { result.now ≡ spelt_resize kind }
{
    match kind {
        ResizeKind::Split => "split",
        ResizeKind::Merge => "merge",
        ResizeKind::Keep => "keep",
    }
}
