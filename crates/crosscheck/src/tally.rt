//! How many rows and events of each kind were met.
use std::{fmt, io};

/// How many kinds are counted.
const KINDS: usize = 17;

/// What is counted: rows by what became of them, and then events by what became of those.
#[derive(Clone, Copy)]
pub enum Met {
    Played,
    Header,
    Text,
    Grammar,
    Limit,
    Kept,
    Script,
    Start,
    Scan,
    Lamp,
    Force,
    Free,
    Refused,
    Early,
    Late,
    Last,
    New,
}

impl Met {
    /// All of them, in their order.
    const ALL: [Met; KINDS] = [
        Met::Played,
        Met::Header,
        Met::Text,
        Met::Grammar,
        Met::Limit,
        Met::Kept,
        Met::Script,
        Met::Start,
        Met::Scan,
        Met::Lamp,
        Met::Force,
        Met::Free,
        Met::Refused,
        Met::Early,
        Met::Late,
        Met::Last,
        Met::New,
    ];
}

/// What its count is called.
impl fmt::Display for Met {
    fn fmt<W: fmt::Write>(&self, f: &mut fmt::Formatter<W>) -> fmt::Result {
        f.write_str(match self {
            Met::Played => "rows played",
            Met::Header => "headers refused",
            Met::Text => "programs refused for a piece that is no token",
            Met::Grammar => "programs refused by their grammar",
            Met::Limit => "programs refused by a limit",
            Met::Kept => "projects refused for keeping too many",
            Met::Script => "scripts refused",
            Met::Start => "starts",
            Met::Scan => "scans",
            Met::Lamp => "scans that lit the lamp",
            Met::Force => "points forced",
            Met::Free => "points freed",
            Met::Refused => "requests refused",
            Met::Early => "cuts before the last write of a save",
            Met::Late => "cuts after it",
            Met::Last => "cuts in it",
            Met::New => "cuts in it that left the new values, and other ones than before",
        })
    }
}

/// How many there are of each kind, in their order: an array by kind, since each is printed, met or not, and a map would hold
/// those alone that were met.
#[derive(Drop)]
pub struct Tally {
    counts: [u64; KINDS],
}

impl Tally {
    /// Nothing was met yet.
    pub(crate) fn new() -> Tally {
        Tally { counts: [0; KINDS] }
    }

    /// One more of a kind.
    pub(crate) fn count(&mut self, met: Met) {
        let count = &mut self.counts[met as usize];
        *count = count.saturating_add(1);
    }

    /// A line for each kind.
    pub(crate) fn print(&self, rt: &HostRuntime) -> io::Result<()> {
        for (met, count) in Met::ALL.iter().zip(&self.counts) {
            println!(rt; "{count} {met}")?;
        }
        Ok(())
    }
}
