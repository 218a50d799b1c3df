//! What a script's events led to, and its text.
ghost use Rattle.std.specs.Prelude.{◌≡◌, Some, IfOk, string_bytes};
ghost use Rattle.std.specs.List.{flat_map};
ghost use Rattle.base.specs.Refusals.{number_of, place_of};
ghost use Rattle.reports.specs.Reports.{said, refused as refused_at, setting_text, spaced, lamp_text, said_words, line_of};

use base::Refusal;
use std::alloc::{AllocError, Global};
use std::fmt;

/// A variable and its value.
#[derive(Clone, Copy, Debug, PartialEq)]
pub struct Setting {
    pub variable: u8,
    pub value: u64,
}

impl fmt::Display for Setting {
    ghost output = { λ setting. Some (setting_text setting) };

    fn fmt<W: fmt::Write>(&self, f: &mut fmt::Formatter<W>) -> fmt::Result {
        let variable = self.variable;
        let value = self.value;
        write!(f, "v{variable} {value}")
    }
}

/// Settings one after another, each with a blank before it.
#[derive(Clone, Copy)]
struct Spaced<'a>(&'a [Setting]);

impl fmt::Display for Spaced<'_> {
    ghost output = { λ settings. Some (flat_map spaced settings.0.now) };

    fn fmt<W: fmt::Write>(&self, f: &mut fmt::Formatter<W>) -> fmt::Result {
        for setting in self.0 {
            write!(f, " {setting}")?;
        }
        Ok(())
    }
}

/// What is told of an event.
#[derive(Debug, Drop)]
pub enum Report {
    /// Power came, and the kept variables were found so.
    Started(Vec<Setting>),
    /// A scan, after which these variables show another value, and after which the fault lamp is lit where it was not.
    Scanned { changed: Vec<Setting>, lamp: bool },
    /// The controller refused it, with this number at this place; any two numbers can be told.
    Refused { number: u64, place: u64 },
}

/// What is told of a refusal.
pub fn refused(refusal: Refusal) -> Report
    ensures { said result ≡ refused_at (number_of refusal) (place_of refusal) }
{
    Report::Refused {
        number: refusal.number(),
        place: refusal.place(),
    }
}

/// What is told of the lamp.
fn lamp_words(lamp: bool) -> &'static str
    ensures { result.now ≡ lamp_text lamp }
{
    if lamp { " lamp lit" } else { "" }
}

impl fmt::Display for Report {
    ghost output = { λ report. Some (said_words (said report)) };

    fn fmt<W: fmt::Write>(&self, f: &mut fmt::Formatter<W>) -> fmt::Result {
        match self {
            Report::Started(kept) => {
                let kept = Spaced(kept.as_slice());
                write!(f, "start:{kept}")
            }
            Report::Scanned { changed, lamp } => {
                let changed = Spaced(changed.as_slice());
                let lamp = lamp_words(*lamp);
                write!(f, "scan:{changed}{lamp}")
            }
            Report::Refused { number, place } => write!(f, "refused {number} at {place}"),
        }
    }
}

/// The lines of all reports.
pub fn render(heap: Global, reports: &[Report]) -> Result<String, AllocError>
    ensures { IfOk result (λ s. string_bytes s ≡ flat_map line_of reports.now) }
{
    let mut out = String::new(heap);
    for report in reports {
        writeln!(out, "{report}")?;
    }
    Ok(out)
}
