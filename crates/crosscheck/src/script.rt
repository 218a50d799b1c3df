//! A random script: events, their lines, and where it goes wrong if it does.
use crate::blanks::Writer;
use crate::cells::Cut;
use crate::random::Random;
use crate::variable::Variable;
use std::alloc::AllocError;

/// What a line says of an input.
#[derive(Clone, Copy)]
pub struct Input {
    pub variable: Variable,
    pub value: u16,
}

/// When a scan comes, and what it says of the inputs.
#[derive(Drop)]
pub struct Scan {
    pub elapsed: u64,
    pub inputs: Vec<Input>,
}

/// What happens.
#[derive(Drop)]
pub enum Event {
    Start,
    Scan(Scan),
    /// A scan whose save is cut.
    Cut(Scan, Cut),
    Force { point: u64, number: u64 },
    Free { point: u64 },
}

impl Event {
    /// What it says of the inputs.
    pub(crate) fn inputs(&self) -> &[Input] {
        match self {
            Event::Scan(scan) | Event::Cut(scan, _) => scan.inputs.as_slice(),
            _ => &[],
        }
    }
}

/// Events in order, and the text that they are written as.
#[derive(Drop)]
pub struct Script {
    pub events: Vec<Event>,
    pub text: String,
    /// The place of the first word that does not fit.
    pub wrong: Option<usize>,
}

/// Lines that are no events, and the place in them.
const WRONG_LINES: [(&str, usize); 20] = [
    ("strat", 0),
    ("start now", 6),
    ("start:", 5),
    ("scan", 4),
    ("scan x", 5),
    ("scan -1", 5),
    ("scan 1 v0 1", 7),
    ("scan 1: v64 1", 8),
    ("scan 1: v01 1", 8),
    ("scan 1: v0", 10),
    ("scan 1: v0 65536", 11),
    ("scan 1: v0 1:", 12),
    ("cut 1 at 2", 10),
    ("cut 1 in 2 junk 3", 6),
    ("cut 1 at 2 junk: v0 1", 15),
    ("force v2", 8),
    ("force 2 1", 6),
    ("force v2 18446744073709551616", 9),
    ("free", 4),
    ("free v2 1", 8),
];

/// What the author of a script knows of the controller: whether it is on, and about which stamp it saves with.
#[derive(Clone, Copy)]
struct Guess {
    on: bool,
    stamp: u64,
    kept: u64,
}

/// A time as a line has it: mostly a short one, seldom one that is too large or nearly so.
fn random_time(random: &mut Random) -> u64 {
    match random.below(30) {
        0 => 65536,
        1 => random.any(),
        2 => 65535,
        _ => random.below(9),
    }
}

/// A number as a line has it: mostly one that fits, seldom the first that is too large, or any.
fn random_number<F: FnOnce(&mut Random) -> u64>(random: &mut Random, limit: u64, fitting: F) -> u64
    requires { F.IsAlwaysCallable fitting }
{
    match random.below(20) {
        0 => limit,
        1 => random.any(),
        _ => fitting(random),
    }
}

/// A point as a line has it.
fn random_point(random: &mut Random) -> u64 {
    random_number(random, 64, |random| random.variable().index() as u64)
}

impl Scan {
    /// A scan that says something of a few inputs.
    fn random(random: &mut Random) -> Result<Scan, AllocError> {
        let elapsed = random_time(random);
        let mut inputs = Vec::new(random.heap);
        for _ in 0..random.below(4) {
            inputs.push(Input {
                variable: random.variable(),
                value: random.word(),
            })?;
        }
        Ok(Scan { elapsed, inputs })
    }
}

impl Guess {
    /// Which write of a save is cut: mostly one of the first four, since few values change from one save to the next but one.
    fn write(self, random: &mut Random) -> u64 {
        match random.below(16) {
            0 => random.any(),
            1..=2 => self.kept.saturating_add(random.below(4)),
            _ => random.below(4),
        }
    }

    /// What a cut leaves: often a stamp.
    fn junk(self, random: &mut Random) -> u64 {
        match random.below(12) {
            0 => random.any(),
            1 => random.below(3),
            2 => random.word() as u64,
            3..=4 => self.stamp,
            5..=6 => self.stamp.saturating_add(2),
            7 => self.stamp.saturating_sub(1),
            _ => self.stamp.saturating_add(1),
        }
    }

    /// Where a save is cut.
    fn cut(self, random: &mut Random) -> Cut {
        Cut {
            write: self.write(random),
            junk: self.junk(random),
        }
    }

    /// An event, and what is guessed after it.
    fn event(&mut self, random: &mut Random) -> Result<Event, AllocError> {
        if !self.on && random.chance(75) {
            self.on = true;
            return Ok(Event::Start);
        }
        match random.below(20) {
            0 => {
                self.on = true;
                Ok(Event::Start)
            }
            1..=2 => Ok(Event::Force {
                point: random_point(random),
                number: random_number(random, 65536, |random| random.word() as u64),
            }),
            3 => Ok(Event::Free {
                point: random_point(random),
            }),
            4..=8 => {
                let cut = self.cut(random);
                self.stamp = self.stamp.saturating_add((self.on && cut.write > 2) as u64);
                self.on = false;
                Ok(Event::Cut(Scan::random(random)?, cut))
            }
            _ => {
                self.stamp = self.stamp.saturating_add(self.on as u64);
                Ok(Event::Scan(Scan::random(random)?))
            }
        }
    }
}

/// The beginning of a line, and inputs behind a colon, which may be left out where there are none.
fn with_inputs(
    mut line: String,
    random: &mut Random,
    inputs: &[Input],
) -> Result<String, AllocError> {
    if inputs.is_empty() && random.chance(50) {
        return Ok(line);
    }
    line.push_str(":")?;
    for input in inputs {
        let gap = random.gap();
        let zeros = random.zeros();
        write!(line, "{gap}{}{gap}{zeros}{}", input.variable, input.value)?;
    }
    Ok(line)
}

/// The line of an event.
fn line_of(random: &mut Random, event: &Event) -> Result<String, AllocError> {
    let heap = random.heap;
    let gap = random.gap();
    let zeros = random.zeros();
    match event {
        Event::Start => String::from_str(heap, "start"),
        Event::Scan(scan) => {
            let elapsed = scan.elapsed;
            let line = format!(in heap; "scan{gap}{zeros}{elapsed}")?;
            with_inputs(line, random, event.inputs())
        }
        Event::Cut(scan, Cut { write, junk }) => {
            let elapsed = scan.elapsed;
            let line = format!(in heap; "cut {elapsed}{gap}at {zeros}{write}{gap}junk {junk}")?;
            with_inputs(line, random, event.inputs())
        }
        Event::Force { point, number } => format!(in heap; "force v{point}{gap}{zeros}{number}"),
        Event::Free { point } => format!(in heap; "free{gap}v{point}"),
    }
}

impl Script {
    /// A script for a project that keeps so many variables.
    pub(crate) fn random(random: &mut Random, kept: u64) -> Result<Script, AllocError> {
        let mut guess = Guess {
            on: random.chance(10),
            stamp: 1,
            kept,
        };
        let mut events = Vec::new(random.heap);
        let count = 4 + random.below(24);
        let mut out = Writer::new(random);
        for _ in 0..count {
            let event = guess.event(out.random)?;
            let line = line_of(out.random, &event)?;
            out.line(line)?;
            if out.random.chance(5) {
                out.line("")?;
            }
            events.push(event)?;
        }
        let mut wrong = None;
        if out.random.chance(3) {
            let line = out.random.pick(&WRONG_LINES);
            wrong = Some(out.misfit(line)?);
            out.line("start")?;
        }
        Ok(Script {
            events,
            text: out.into_text(),
            wrong,
        })
    }
}
