//! The chunk starts of a section, judged one after another.

ghost use Rattle.std.specs.Prelude.{◌≡◌, ◌+◌, ◌<◌, ◌^◌, slice_get};
ghost use Rattle.e57_check.specs.Starts.{AreStarts, IsWidth, items as the_items, float_items, start_fault as the_start_fault, left_fault as the_left_fault, entry_start_fault, left_entry_fault, counted_start_fault, arrived as the_arrived};

use e57_base::{Fault, Kind};
use e57_index::Entries;
use e57_layout::{Entry, Fixed, Section};
use e57_page::place_of;

/// What the chunk starts of a section are judged by.
#[derive(Drop)]
pub enum Starts {
    /// The entries of its index, one for each chunk.
    Indexed(Entries),
    /// In a section without an index, the items of the first Float field, if there is one.
    Counted(Option<Fixed>),
}

/// What is known after some data packets.
#[derive(Clone, Copy, Debug, PartialEq, Eq)]
pub struct Came {
    /// How many chunks began.
    pub starts: usize,
    /// The first record of the last of them, as the items of the Float field before it tell it.
    pub first: u64,
    /// The bytes of the Float field's stream in it.
    pub bytes: u64,
    /// The first fault of a chunk start.
    pub found: Option<Fault>,
}

/// How far the packets of a section were taken.
#[derive(Clone, Copy, Debug, PartialEq, Eq)]
pub struct Passed {
    /// The place up to which they were taken.
    pub taken: u64,
    /// What is known after the data packets among them.
    pub came: Came,
}

/// What is known after one data packet more, at place `at`, with so many bytes of the Float field.
pub fn arrived(
    section: &Section,
    starts: &Starts,
    came: Came,
    at: u64,
    restart: bool,
    bytes: u64,
) -> Came
    requires starts { AreStarts section.now starts.now }
    requires room { came.bytes + bytes < 2 ^ 64 }
    requires few { came.first + came.bytes < 2 ^ 64 }
    requires some { came.starts + 1 < 2 ^ 64 }
    ensures { result ≡ the_arrived section.now starts.now came at restart bytes }
{
    if came.starts > 0 && !restart {
        return Came {
            bytes: came.bytes + bytes,
            ..came
        };
    }
    Came {
        starts: came.starts + 1,
        first: came.first + items(section, starts, came.bytes),
        bytes,
        found: came.found.or(start_fault(section, starts, &came, at)),
    }
}

/// How many whole items so many bytes are.
fn items(section: &Section, starts: &Starts, bytes: u64) -> u64
    requires { AreStarts section.now starts.now }
    ensures { result ≡ the_items starts.now bytes }
{
    match starts {
        Starts::Indexed(_) => 0,
        Starts::Counted(fixed) => whole_items(*fixed, bytes),
    }
}

/// How many whole items of the Float field so many bytes are, and none where no field is a Float.
fn whole_items(fixed: Option<Fixed>, bytes: u64) -> u64
    requires { IsWidth fixed }
    ensures { result ≡ float_items fixed bytes }
{
    let Some(fixed) = fixed else {
        return 0;
    };
    if fixed.bytes == 8 {
        bytes / 8
    } else {
        bytes / 4
    }
}

/// The fault of the chunk that begins at place `at`, after what came.
fn start_fault(section: &Section, starts: &Starts, came: &Came, at: u64) -> Option<Fault>
    requires starts { AreStarts section.now starts.now }
    requires few { came.now.first + came.now.bytes < 2 ^ 64 }
    ensures { result ≡ the_start_fault section.now starts.now came.now at }
{
    match starts {
        Starts::Indexed(entries) => {
            let entry = entry_at(entries, came.starts);
            entry_fault(section, entry, came.starts, at)
        },
        Starts::Counted(fixed) => {
            let items = whole_items(*fixed, came.bytes);
            counted_fault(section, came, items, at)
        }
    }
}

/// Entry `j`, if there are so many.
fn entry_at(entries: &Entries, j: usize) -> Option<Entry>
    ensures { result ≡ slice_get entries.now j }
{
    if j < entries.len() {
        Some(entries.get(j))
    } else {
        None
    }
}

/// The fault of chunk start `j` at place `at`, whose entry names another place or is absent.
fn entry_fault(section: &Section, entry: Option<Entry>, j: usize, at: u64) -> Option<Fault>
    ensures { result ≡ entry_start_fault section.now j entry at }
{
    let node = u64::from(section.node);
    let restart = Fault::new(Kind::RestartUnindexed, node, at);
    let Some(entry) = entry else {
        return Some(restart);
    };
    let target = Fault::new(Kind::IndexTarget, node, entry.first);
    let Some(place) = place_of(entry.place) else {
        return Some(target);
    };
    if place == at {
        return None;
    }
    if j > 0 && at < place {
        Some(restart)
    } else {
        Some(target)
    }
}

/// The fault of the chunk that begins at place `at` without an index, where the chunk before it has so many items: it is the
/// first one, or the one before it has records and leaves some.
fn counted_fault(section: &Section, came: &Came, items: u64, at: u64) -> Option<Fault>
    requires { came.now.first + items < 2 ^ 64 }
    ensures { result ≡ counted_start_fault section.now came.now items at }
{
    if came.starts == 0 {
        return None;
    }
    let full = items == 0 || came.first + items >= section.count;
    full.then_some(Fault::new(Kind::RestartUnindexed, u64::from(section.node), at))
}

/// The first fault of the chunk starts where no data packet is left: an entry that no chunk has comes last.
pub fn left_fault(section: &Section, starts: &Starts, came: &Came) -> Option<Fault>
    ensures { result ≡ the_left_fault section.now starts.now came.now }
{
    match starts {
        Starts::Indexed(entries) => {
            came.found
                .or(left_entry(section, entry_at(entries, came.starts)))
        },
        Starts::Counted(_) => came.found,
    }
}

/// The fault of an entry that no chunk start has, if there is one.
fn left_entry(section: &Section, entry: Option<Entry>) -> Option<Fault>
    ensures { result ≡ left_entry_fault section.now entry }
{
    let entry = entry?;
    Some(Fault::new(Kind::IndexTarget, u64::from(section.node), entry.first))
}
