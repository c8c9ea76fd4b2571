// What a coordinator is to do, as a text.
ghost use Rattle.std.specs.Prelude.{◌≡◌, ◌≤◌, [], length};
ghost use Rattle.text_grammar.specs.Cuts.{words_of};
ghost use Rattle.text_grammar.specs.Readings.{read, read_each, reading};
ghost use Rattle.text_grammar.specs.Results.{Gives};
ghost use Rattle.schedule_words.specs.Places.{next_replica};
ghost use Rattle.run_plan.specs.Fits.{is_move};
ghost use Rattle.cluster_file.specs.Plans.{act_word, act_by, act, move_act, table_named, host_named, create_act, early_stage};

use base_ids::{HostId, Items, ReplicaList, TableId};
use run_plan::Act;
use schedule_words::{any_host, any_replica, log2, next_replica, table_number, tablet_number};
use stage_graph::Stage;
use std::alloc::Global;
use text_grammar::{Fault, LineError, TextRule, is_end, next_word, no_word};

/// The first word of an act.
#[derive(Clone, Copy)]
pub(crate) enum ActVerb {
    /// The word `move`.
    Move,
    /// The word `split`.
    Split,
    /// The word `merge`.
    Merge,
    /// The word `join`.
    Join,
    /// The word `leave`.
    Leave,
    /// The word `create`.
    Create,
}

/// The act that begins with a word.
fn act_word(word: &[u8]) -> Option<ActVerb>
    ensures { result ≡ act_word word.now }
{
    if word == b"move".as_slice() {
        Some(ActVerb::Move)
    } else if word == b"split".as_slice() {
        Some(ActVerb::Split)
    } else if word == b"merge".as_slice() {
        Some(ActVerb::Merge)
    } else if word == b"join".as_slice() {
        Some(ActVerb::Join)
    } else if word == b"leave".as_slice() {
        Some(ActVerb::Leave)
    } else if word == b"create".as_slice() {
        Some(ActVerb::Create)
    } else {
        None
    }
}

/// A move of a tablet, `T I F P`.
#[tactic(auto, unfolding(crate::specs::Plans::move_act))]
fn move_act(words: &[u8]) -> Result<Act, Fault>
    ensures { result ≡ reading move_act (words_of words.now) }
{
    let (word, words) = next_word(words)?;
    let table = table_number(word)?;
    let (word, words) = next_word(words)?;
    let tablet = tablet_number(word)?;
    let (word, words) = next_word(words)?;
    let from = any_replica(word)?;
    let (word, words) = next_word(words)?;
    let to = any_replica(word)?;
    no_word(words)?;
    Ok(Act::Move {
        table,
        tablet,
        from,
        to,
    })
}

/// A table, `T`.
#[tactic(auto, unfolding(crate::specs::Plans::table_named))]
fn table_named(words: &[u8]) -> Result<TableId, Fault>
    ensures { result ≡ reading table_named (words_of words.now) }
{
    let (word, words) = next_word(words)?;
    let table = table_number(word)?;
    no_word(words)?;
    Ok(table)
}

/// A host, `H`.
#[tactic(auto, unfolding(crate::specs::Plans::host_named))]
fn host_named(words: &[u8]) -> Result<HostId, Fault>
    ensures { result ≡ reading host_named (words_of words.now) }
{
    let (word, words) = next_word(words)?;
    let host = any_host(word)?;
    no_word(words)?;
    Ok(host)
}

/// The replicas in these words.
fn replicas(alloc: Global, words: &[u8]) -> Result<ReplicaList, LineError>
    ensures { Gives (λ list. list) result (read_each next_replica [] (words_of words.now)) }
{
    let mut replicas = Items::new(alloc);
    let mut left = words;
    'words: while !is_end(left) {
        let (word, behind) = next_word(left)?;
        let replica = next_replica(replicas.as_slice(), word)?;
        replicas.push(replica)?;
        left = behind;
    }
    Ok(ReplicaList::new(alloc, replicas.as_slice())?)
}

/// A new table, `T B R R R`.
#[tactic(auto, unfolding(crate::specs::Plans::create_act))]
fn create_act(alloc: Global, words: &[u8]) -> Result<Act, LineError>
    ensures { Gives (λ x. x) result (reading create_act (words_of words.now)) }
{
    let (word, words) = next_word(words)?;
    let table = table_number(word)?;
    let (word, words) = next_word(words)?;
    let log2 = log2(word)?;
    if is_end(words) {
        return Err(LineError::Fault(Fault::Refused(TextRule::BadWord)));
    }
    let replicas = replicas(alloc, words)?;
    Ok(Act::Create {
        table,
        log2,
        replicas,
    })
}

/// What stands behind the first word of an act.
fn act_by(alloc: Global, verb: ActVerb, words: &[u8]) -> Result<Act, LineError>
    ensures { Gives (λ x. x) result (reading (act_by verb) (words_of words.now)) }
{
    match verb {
        ActVerb::Move => Ok(move_act(words)?),
        ActVerb::Split => Ok(Act::Split(table_named(words)?)),
        ActVerb::Merge => Ok(Act::Merge(table_named(words)?)),
        ActVerb::Join => Ok(Act::Join(host_named(words)?)),
        ActVerb::Leave => Ok(Act::Leave(host_named(words)?)),
        ActVerb::Create => create_act(alloc, words),
    }
}

/// The act that a text says.
#[tactic(auto, unfolding(crate::specs::Plans::act))]
pub(crate) fn act_in(alloc: Global, words: &[u8]) -> Result<Act, LineError>
    ensures { Gives (λ x. x) result (reading act (words_of words.now)) }
{
    let (word, words) = next_word(words)?;
    match act_word(word) {
        None => Err(LineError::Fault(Fault::Refused(TextRule::BadWord))),
        Some(verb) => act_by(alloc, verb, words),
    }
}

/// Whether the act is a move of a tablet.
pub(crate) fn is_move(act: &Act) -> bool
    ensures { result ≡ is_move act.now }
{
    match act {
        Act::Move { .. } => true,
        Act::Split(_) => false,
        Act::Merge(_) => false,
        Act::Join(_) => false,
        Act::Leave(_) => false,
        Act::Create { .. } => false,
    }
}

/// A stage from which a move may go back.
#[tactic(auto, unfolding(crate::specs::Plans::early_stage))]
pub(crate) fn early_stage(word: &[u8]) -> Result<Stage, Fault>
    ensures { result ≡ read early_stage word.now }
{
    if word == Stage::AllowWriteBothReadOld.word().as_bytes() {
        Ok(Stage::AllowWriteBothReadOld)
    } else if word == Stage::WriteBothReadOld.word().as_bytes() {
        Ok(Stage::WriteBothReadOld)
    } else if word == Stage::Streaming.word().as_bytes() {
        Ok(Stage::Streaming)
    } else if word == Stage::WriteBothReadNew.word().as_bytes() {
        Ok(Stage::WriteBothReadNew)
    } else {
        Err(Fault::Refused(TextRule::BadWord))
    }
}
