// The lines of the header.
ghost use Rattle.std.specs.Prelude.{◌≡◌, IfOk};
ghost use Rattle.text_grammar.specs.Cuts.{words_of};
ghost use Rattle.text_grammar.specs.Readings.{reading};
ghost use Rattle.text_grammar.specs.Results.{Gives};
ghost use Rattle.schedule_header.specs.Header.{no_header, is_before_members, may_stand, opening_of};
ghost use Rattle.schedule_header.specs.Forms.{first_word, format_of, format_word, most_hosts};
ghost use Rattle.schedule_header.specs.Sound.{IsSoundHeader, IsSoundStep};
ghost use Rattle.schedule_header.specs.Code.{header_in, step_in, step_by, next_step};
ghost use Rattle.schedule_words.specs.declared.verbs.HeaderVerb.TheVariants.{Tablet as TabletWord};

use crate::counts::count_line;
use crate::members::{hosts_below, members_line};
use crate::state::{HeaderState, HeaderStep};
use crate::tables::{place, table_line, tablet_line};
use base_ids::{Items, LimitName, NoMemory};
use cluster_history::Opening;
use schedule_words::{Format, HeaderVerb, header_word};
use std::alloc::Global;
use text_grammar::{Fault, LineError, TextRule, is_end, next_word, no_word};

/// The header of a text of this format, of which nothing else is said yet.
pub fn first_header(alloc: Global, format: Format) -> HeaderState
    ensures { header_in result ≡ no_header format }
{
    HeaderState {
        format,
        hosts: None,
        lanes: None,
        shards: None,
        members: None,
        tables: Vec::new(alloc),
        placed: Items::new(alloc),
    }
}

/// The format of a word. `None` comes exactly where the word is none.
fn format_word(word: &[u8]) -> Option<Format>
    ensures { result ≡ format_word word.now }
{
    if word == b"1".as_slice() {
        Some(Format::One)
    } else if word == b"2".as_slice() {
        Some(Format::Two)
    } else {
        None
    }
}

/// The format that a line names: `tablets 1` or `tablets 2`. `None` comes exactly where it is neither.
pub fn format_of(line: &[u8]) -> Option<Format>
    ensures { result ≡ format_of (words_of line.now) }
{
    match next_word(line) {
        Err(_) => None,
        Ok((first, behind)) => match next_word(behind) {
            Err(_) => None,
            Ok((second, behind)) => {
                if !is_end(behind) {
                    return None;
                }
                if first == b"tablets".as_slice() {
                    format_word(second)
                } else {
                    None
                }
            }
        },
    }
}

/// So many hosts there may be.
fn most_hosts(format: Format) -> u16
    ensures { result ≡ most_hosts format }
{
    match format {
        Format::One => 64,
        Format::Two => 256,
    }
}

/// Whether nothing is said behind the counts.
fn is_before_members(header: &HeaderState) -> bool
    ensures { result ≡ is_before_members (header_in header.now) }
{
    header.members.is_none() && header.tables.as_slice().is_empty()
}

/// Whether a line that begins so may stand here.
fn may_stand(header: &HeaderState, verb: HeaderVerb) -> bool
    ensures { result ≡ may_stand (header_in header.now) verb }
{
    match verb {
        HeaderVerb::Tablets => false,
        HeaderVerb::Hosts => header.hosts.is_none(),
        HeaderVerb::Lanes => header.hosts.is_some()
            && (header.lanes.is_none() && (header.shards.is_none() && is_before_members(header))),
        HeaderVerb::Shards => header.hosts.is_some()
            && (header.shards.is_none() && is_before_members(header)),
        HeaderVerb::Members => header.hosts.is_some() && is_before_members(header),
        HeaderVerb::Table => header.hosts.is_some(),
        HeaderVerb::Tablet => header.hosts.is_some(),
        HeaderVerb::Go => header.hosts.is_some() && header.lanes.is_some(),
    }
}

/// What the first word of a line says that it is.
fn first_word(header: &HeaderState, word: &[u8]) -> Result<HeaderVerb, Fault>
    ensures { result ≡ first_word (header_in header.now) word.now }
{
    match header_word(word) {
        None => Err(Fault::Refused(TextRule::BadWord)),
        Some(verb) => {
            if may_stand(header, verb) {
                Ok(verb)
            } else {
                Err(Fault::Refused(TextRule::BadHeader))
            }
        }
    }
}

/// How the cluster stands behind the header.
fn opening(alloc: Global, header: HeaderState) -> Result<Opening, NoMemory>
    ensures { IfOk result (λ opening. opening ≡ opening_of (header_in header)) }
{
    let hosts = header.hosts.unwrap_or(0);
    let HeaderState {
        lanes,
        shards,
        members,
        tables,
        ..
    } = header;
    let members = match members {
        None => hosts_below(alloc, hosts)?,
        Some(members) => members,
    };
    Ok(Opening {
        hosts,
        lanes: lanes.unwrap_or(0),
        shards: shards.unwrap_or(1),
        members,
        tables: Items::from_vec(tables),
    })
}

/// What a line that begins with `tablet` makes.
fn place_line(alloc: Global, header: HeaderState, words: &[u8]) -> Result<HeaderStep, LineError>
    requires { IsSoundHeader (header_in header) }
    ensures { Gives step_in result (step_by (header_in header) TabletWord (words_of words.now)) }
{
    let mut header = header;
    let line = tablet_line(alloc, &header, words)?;
    place(alloc, header.tables.as_mut_slice(), &line)?;
    header.placed.push((line.table, line.tablet))?;
    Ok(HeaderStep::More(header))
}

/// What a line that begins so makes.
fn line_by(
    alloc: Global,
    verb: HeaderVerb,
    header: HeaderState,
    words: &[u8],
) -> Result<HeaderStep, LineError>
    requires { IsSoundHeader (header_in header) }
    ensures { Gives step_in result (step_by (header_in header) verb (words_of words.now)) }
{
    let mut header = header;
    match verb {
        HeaderVerb::Tablets => {
            return Err(LineError::Fault(Fault::Refused(TextRule::BadHeader)));
        }
        HeaderVerb::Hosts => {
            let hosts = count_line(1 << 16, most_hosts(header.format), LimitName::Hosts, words)?;
            header.hosts = Some(hosts);
        }
        HeaderVerb::Lanes => {
            let lanes = count_line(1 << 8, 4, LimitName::Lanes, words)?;
            header.lanes = Some(lanes as u8);
        }
        HeaderVerb::Shards => {
            let shards = count_line(1 << 8, 16, LimitName::Shards, words)?;
            header.shards = Some(shards as u8);
        }
        HeaderVerb::Members => {
            let members = members_line(alloc, header.hosts.unwrap_or(0), words)?;
            header.members = Some(members);
        }
        HeaderVerb::Table => {
            let table = table_line(alloc, &header, words)?;
            header.tables.push(table)?;
        }
        HeaderVerb::Tablet => return place_line(alloc, header, words),
        HeaderVerb::Go => {
            no_word(words)?;
            return Ok(HeaderStep::Opened(opening(alloc, header)?));
        }
    }
    Ok(HeaderStep::More(header))
}

/// What a line of the header makes.
#[tactic(auto, unfolding(crate::specs::Forms::header_line))]
pub fn header_line(alloc: Global, header: HeaderState, line: &[u8]) -> Result<HeaderStep, LineError>
    requires { IsSoundHeader (header_in header) }
    ensures read { Gives step_in result (next_step (header_in header) (words_of line.now)) }
    ensures sound { IfOk result (λ step. IsSoundStep (step_in step)) }
{
    let (word, words) = next_word(line)?;
    let verb = first_word(&header, word)?;
    line_by(alloc, verb, header, words)
}
