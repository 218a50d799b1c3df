//! A random project's header, with what it says and where it goes wrong if it does.
use crate::blanks::Writer;
use crate::random::Random;
use std::alloc::AllocError;

/// What a project says of its variables.
#[derive(Clone, Copy)]
pub struct Settings {
    pub kept: u64,
    pub inputs: [bool; 64],
    pub firsts: [u16; 64],
}

/// The text before a program, and what it says.
#[derive(Drop)]
pub struct Header {
    pub settings: Settings,
    pub text: String,
    /// The place of the first word that does not fit.
    pub wrong: Option<usize>,
}

/// Lines that do not fit where no line before them names v63, kept or outside, and the place in them.
const WRONG_LINES: [(&str, usize); 20] = [
    ("kept x", 5),
    ("kept", 4),
    ("kept 3 4", 7),
    ("kept +3", 5),
    ("kept 18446744073709551616", 5),
    ("kept 3\nkept 4", 7),
    ("Kept 3", 0),
    ("outside v64", 8),
    ("outside v1 3", 11),
    ("outside v1 v02", 11),
    ("outside v0\noutside v1", 11),
    ("first v63", 9),
    ("first 63 5", 6),
    ("first v64 1", 6),
    ("first v63 65536", 10),
    ("first v63 1 2", 12),
    ("first v63 5\nfirst v63 6", 18),
    ("program now", 8),
    ("kept: 3", 4),
    ("v1 := 1;", 0),
];

/// The parts of a header.
#[derive(Clone, Copy)]
enum Part {
    Kept,
    Outside,
    Firsts,
    Blank,
}

/// How many variables are kept: mostly few.
fn random_kept(random: &mut Random) -> u64 {
    match random.below(40) {
        0 => 64,
        1 => 65 + random.below(3),
        2 => random.any(),
        3 => random.below(65),
        _ => random.below(5),
    }
}

impl Settings {
    /// What an empty header says.
    const NONE: Settings = Settings {
        kept: 0,
        inputs: [false; 64],
        firsts: [0; 64],
    };

    /// A few inputs and first values; v63 has none, so that a line that is wrong may name it.
    fn random(random: &mut Random) -> Settings {
        let mut settings = Settings::NONE;
        settings.kept = random_kept(random);
        for _ in 0..random.below(5) {
            settings.inputs[random.variable().index()] = true;
        }
        for _ in 0..random.below(4) {
            settings.firsts[random.variable().index() % 63] = random.word();
        }
        settings
    }

    /// The line of the kept variables, which may be left out where there are none.
    fn write_kept(&self, out: &mut Writer<'_>) -> Result<(), AllocError> {
        if self.kept == 0 && out.random.chance(80) {
            return Ok(());
        }
        let gap = out.random.gap();
        let zeros = out.random.zeros();
        out.line(format_args!("kept{gap}{zeros}{}", self.kept))
    }

    /// The line of the inputs, likewise.
    fn write_outside(&self, out: &mut Writer<'_>) -> Result<(), AllocError> {
        if !self.inputs.contains(&true) && out.random.chance(80) {
            return Ok(());
        }
        out.text.push_str("outside")?;
        for (variable, input) in self.inputs.iter().enumerate() {
            if *input {
                let gap = out.random.gap();
                write!(out.text, "{gap}v{variable}")?;
            }
        }
        out.line("")
    }

    /// A line for each variable that is not 0 at first.
    fn write_firsts(&self, out: &mut Writer<'_>) -> Result<(), AllocError> {
        for (variable, value) in self.firsts.iter().enumerate() {
            if *value != 0 {
                let gap = out.random.gap();
                let zeros = out.random.zeros();
                out.line(format_args!("first {gap}v{variable}{gap}{zeros}{value}"))?;
            }
        }
        Ok(())
    }

    /// One part of a header.
    fn write(&self, part: Part, out: &mut Writer<'_>) -> Result<(), AllocError> {
        match part {
            Part::Kept => self.write_kept(out),
            Part::Outside => self.write_outside(out),
            Part::Firsts => self.write_firsts(out),
            Part::Blank => out.line(""),
        }
    }
}

/// The parts of a header in one of eight orders: from any of them on, forwards or backwards.
fn random_order(random: &mut Random) -> [Part; 4] {
    let mut parts = [Part::Kept, Part::Outside, Part::Firsts, Part::Blank];
    parts.rotate_left(random.below(4) as usize);
    if random.below(2) == 1 {
        parts[1..].reverse();
    }
    parts
}

impl Header {
    /// A header that can be read.
    fn right(random: &mut Random) -> Result<Header, AllocError> {
        let settings = Settings::random(random);
        let parts = random_order(random);
        let mut out = Writer::new(random);
        for part in parts {
            settings.write(part, &mut out)?;
        }
        out.line("program")?;
        Ok(Header {
            settings,
            text: out.into_text(),
            wrong: None,
        })
    }

    /// A header that can't be read.
    fn wrong(random: &mut Random) -> Result<Header, AllocError> {
        let mut out = Writer::new(random);
        out.line("")?;
        out.line("first v1 5")?;
        let line = out.random.pick(&WRONG_LINES);
        let place = if out.random.chance(90) {
            let place = out.misfit(line)?;
            out.text.push_str("program\n")?;
            place
        } else {
            out.text.len()
        };
        Ok(Header {
            settings: Settings::NONE,
            text: out.into_text(),
            wrong: Some(place),
        })
    }

    /// A header that can most often be read.
    pub(crate) fn random(random: &mut Random) -> Result<Header, AllocError> {
        if random.chance(3) {
            Header::wrong(random)
        } else {
            Header::right(random)
        }
    }
}
