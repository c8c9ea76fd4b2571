// Operations.
ghost use Rattle.std.specs.Prelude.{◌≡◌};
ghost use Rattle.text_grammar.specs.Cuts.{seen_more, words_of};
ghost use Rattle.schedule_lines.specs.Code.{operation_at, read_at, write_at};
ghost use Rattle.schedule_lines.specs.Forms.{with_level};

use crate::verbs::{OperationVerb, operation_word};
use cluster_history::Operation;
use schedule_words::{cell, table_number, token};
use stage_graph::Level;
use text_grammar::{Fault, TextRule, next_word};

/// What a write at a majority says behind its first word, and the words behind it.
#[tactic(auto, unfolding(crate::specs::Code::write_at))]
fn write_at(words: &[u8]) -> Result<(Operation, &[u8]), Fault>
    ensures { seen_more result ≡ write_at (words_of words.now) }
{
    let (word, words) = next_word(words)?;
    let table = table_number(word)?;
    let (word, words) = next_word(words)?;
    let token = token(word)?;
    let (word, words) = next_word(words)?;
    let cell = cell(word)?;
    let level = Level::Quorum;
    Ok((
        Operation::Write {
            table,
            token,
            cell,
            level,
        },
        words,
    ))
}

/// What a read at a majority says behind its first word, and the words behind it.
#[tactic(auto, unfolding(crate::specs::Code::read_at))]
fn read_at(words: &[u8]) -> Result<(Operation, &[u8]), Fault>
    ensures { seen_more result ≡ read_at (words_of words.now) }
{
    let (word, words) = next_word(words)?;
    let table = table_number(word)?;
    let (word, words) = next_word(words)?;
    let token = token(word)?;
    let level = Level::Quorum;
    Ok((
        Operation::Read {
            table,
            token,
            level,
        },
        words,
    ))
}

/// An operation at a majority, and the words behind it.
#[tactic(auto, unfolding(crate::specs::Code::operation_at))]
pub fn operation_at(words: &[u8]) -> Result<(Operation, &[u8]), Fault>
    ensures { seen_more result ≡ operation_at (words_of words.now) }
{
    let (word, words) = next_word(words)?;
    match operation_word(word) {
        None => Err(Fault::Refused(TextRule::BadWord)),
        Some(OperationVerb::Write) => write_at(words),
        Some(OperationVerb::Read) => read_at(words),
    }
}

/// The operation at another level.
pub fn with_level(level: Level, operation: Operation) -> Operation
    ensures { result ≡ with_level level operation }
{
    match operation {
        Operation::Write {
            table,
            token,
            cell,
            ..
        } => Operation::Write {
            table,
            token,
            cell,
            level,
        },
        Operation::Read { table, token, .. } => Operation::Read {
            table,
            token,
            level,
        },
    }
}
