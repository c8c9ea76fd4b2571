//! What a host keeps of its own entries.
ghost use Rattle.std.specs.Prelude.{◌≡◌, [], OnOk};
ghost use Rattle.base_ids.specs.declared.ids.HostId.{HostId};
ghost use Rattle.engine_desk.specs.Chairs.{Known};
ghost use Rattle.engine_hosts.specs.Notes.{IsNoted, first_notes, input_noted, publish_noted, times_in};

use base_ids::{NoMemory, Session, Version};
use host_core::HostInput;
use std::alloc::Global;
use std::marker::Model;

/// What a host keeps of its own entries, and of what it published.
pub struct Notes {
    pulls: Vec<Session>,
    chunks: Vec<Session>,
    published: Version,
}

impl Model for Notes {
    ghost use Rattle.engine_hosts.specs.Notes.{NotesView};

    ghost Value = { NotesView };

    ghost view = { λ n. record {
      pulls = n.pulls.items;
      chunks = n.chunks.items;
      published = n.published;
    } };
}

/// How often the session stands in the list.
fn count_of(sessions: &[Session], session: Session) -> usize
    ensures { result ≡ times_in session sessions.now }
{
    let mut count = 0;
    'sessions: for other in sessions {
        if *other == session {
            count += 1;
        }
    }
    count
}

impl Notes {
    /// The notes of a host that has done nothing; the version is the one that its seat has published.
    pub fn new(alloc: Global, published: Version) -> Notes
        ensures is { result ≡ first_notes published }
        ensures noted { (known : Known) (host : HostId) → known.seen ≡ [] → known.published ≡ published
            → IsNoted known host result }
    {
        Notes {
            pulls: Vec::new(alloc),
            chunks: Vec::new(alloc),
            published,
        }
    }

    /// The version that the host published last.
    pub fn published(&self) -> Version
        ensures { result ≡ self.now.published }
    {
        self.published
    }

    /// How often it began or repeated the pull of the session. The cost is by the number of all its pull events.
    pub fn pulls(&self, session: Session) -> usize
        ensures { result ≡ times_in session self.now.pulls }
    {
        count_of(self.pulls.as_slice(), session)
    }

    /// How many chunks of the session it has taken. The cost is by the number of all chunks that it has taken.
    pub fn chunks(&self, session: Session) -> usize
        ensures { result ≡ times_in session self.now.chunks }
    {
        count_of(self.chunks.as_slice(), session)
    }

    /// Notes an event with this input. `NoMemory` leaves the notes as they are.
    pub fn note_input(&mut self, input: &HostInput) -> Result<(), NoMemory>
        ensures { OnOk result (self.new ≡ input_noted input.now self.old) }
    {
        match input {
            HostInput::Pull(session) => self.pulls.push(*session)?,
            HostInput::TakeChunk(chunk) => self.chunks.push(chunk.get().session)?,
            _ => {}
        }
        Ok(())
    }

    /// Notes that the host published the version.
    pub fn note_published(&mut self, version: Version)
        ensures { self.new ≡ publish_noted version self.old }
    {
        self.published = version;
    }
}
