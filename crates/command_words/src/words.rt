//! The words of a command.
ghost use Rattle.std.specs.Prelude.{◌≡◌, IfOk, is_some, map, option_map, true};
ghost use Rattle.std.specs.List.{list_all};
ghost use Rattle.clap.specs.Words.{subcommand_rows_of};
ghost use Rattle.command_words.specs.Program.{command_found, command_named, is_plain};
ghost use Rattle.command_words.specs.Words.{asked_alone, asked_command};

use crate::numbers::number_of;
use crate::program::program;
use crate::texts::plain_texts;
use base_ids::{NoMemory, Text};
use clap::ArgMatches;
use clap::error::ErrorKind;
use std::alloc::Global;

/// What the program is asked to do.
#[derive(Clone, Copy, Debug, PartialEq, Eq)]
pub enum Command {
    /// To play the schedule that is read.
    Play,
    /// To make the schedule of this number, and play it.
    Gen(u64),
    /// To play the schedule that is read, and name its repaired reads.
    Reads,
    /// To play the schedule that is read, and plan moves that even out its tablets.
    Balance,
}

/// The command of a word that asks alone.
fn asked_alone(word: &[u8]) -> Option<Command>
    ensures { result ≡ asked_alone word.now }
{
    if word == b"play".as_slice() {
        Some(Command::Play)
    } else if word == b"reads".as_slice() {
        Some(Command::Reads)
    } else if word == b"balance".as_slice() {
        Some(Command::Balance)
    } else {
        None
    }
}

/// Whether the words after the program's name ask for a command. It takes no memory.
#[tactic(auto, unfolding(crate::specs::Words::number_of))]
pub fn is_command(words: &[Text]) -> bool
    ensures { result ≡ is_some (asked_command words.now) }
{
    match words {
        [word] => asked_alone(word.as_slice()).is_some(),
        [word, number] => word.as_slice() == b"gen".as_slice()
            && number_of(number.as_slice()).is_some(),
        _ => false,
    }
}

/// The command of this name, with the word of its number.
fn command_named(name: &str, number: Option<&str>) -> Option<Command>
    ensures { result ≡ command_named name.now (option_map (λ word. word.now) number.entry) }
{
    if name == "gen" {
        let number = number_of(number?.as_bytes())?;
        Some(Command::Gen(number))
    } else {
        asked_alone(name.as_bytes())
    }
}

/// The command that was found in the words.
fn command_found(matches: &ArgMatches<'_>) -> Option<Command>
    ensures { result ≡ command_found (subcommand_rows_of matches.now) }
{
    let (name, found) = matches.subcommand()?;
    command_named(name, found.get_str("number"))
}

/// The command that the texts ask for.
fn read_texts<'a>(alloc: Global, texts: &'a [&'a str]) -> Result<Option<Command>, NoMemory>
    requires { list_all is_plain (map (λ text. text.now) texts.now) ≡ true }
    ensures { IfOk result (λ command. command ≡ asked_command (map (λ text. text.now) texts.now)) }
{
    let command = program(alloc)?;
    match command.try_get_matches_from(texts) {
        Ok(matches) => Ok(command_found(&matches)),
        Err(error) => match error.kind() {
            ErrorKind::OutOfMemory => Err(NoMemory),
            _ => Ok(None),
        },
    }
}

/// The command that the words after the program's name ask for: `play`, `reads` or `balance`, or `gen N` with N of 1 to
/// 20 digits and at most 2^64 - 1. `None` comes for every other list of words, and `NoMemory` where reading them wants
/// memory.
///
/// `clap` reads the words. Two kinds of lists are refused before: those with a word that is no UTF-8, since it reads
/// text, and those that hold `--`, since it takes `gen -- 7` as it takes `gen 7`. It takes any word for the number that
/// is no flag, such as an empty word or `-`, so the word is read as a number after.
pub fn read_words(alloc: Global, words: &[Text]) -> Result<Option<Command>, NoMemory>
    ensures { IfOk result (λ command. command ≡ asked_command words.now) }
{
    match plain_texts(alloc, words)? {
        Some(texts) => read_texts(alloc, texts.as_slice()),
        None => Ok(None),
    }
}
