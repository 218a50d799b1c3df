//! The story of a controller, told plainly: what each event does to it, and the line that is printed of it. It knows no code and no machine.
use crate::cells::{Cells, Cut};
use crate::header::Settings;
use crate::meaning::Values;
use crate::refusal::Refusal;
use crate::script::{Event, Input, Scan};
use crate::tally::{Met, Tally};
use crate::tree::Stmt;
use crate::trouble::Trouble;
use semantics::evaluate;
use std::alloc::{AllocError, Global};
use std::cmp::Ordering;
use syntax::tree::Tree;

/// A program's two trees: the one that was made, and the one that was read from the text.
#[derive(Clone, Copy)]
pub struct Trees<'a> {
    pub made: &'a Stmt,
    pub read: &'a Tree,
}

impl Trees<'_> {
    /// What a program makes of values, if both trees make the same.
    fn run(self, before: Values, elapsed: u16) -> Result<Values, Trouble> {
        let mut after = before;
        after.run(self.made, elapsed);
        let mut vars = before.vars.map(u64::from);
        let mut fault = before.lamp as u64;
        let read = evaluate(self.read, elapsed as u64, &mut vars, &mut fault);
        if read.is_ok() && vars == after.vars.map(u64::from) && (fault != 0) == after.lamp {
            Ok(after)
        } else {
            Err(Trouble::Meaning)
        }
    }
}

/// Values, with others in the place of some.
fn overlaid(mut values: [u16; 64], others: &[Option<u16>; 64]) -> [u16; 64] {
    for (value, other) in values.iter_mut().zip(others) {
        *value = other.unwrap_or(*value);
    }
    values
}

/// A number that is a word, as was found before.
fn word(number: u64) -> u16 {
    number.min(65535) as u16
}

/// A controller beside a project and a script, and what is met on the way.
#[derive(Drop)]
pub struct Story<'a> {
    heap: Global,
    trees: Trees<'a>,
    tally: &'a mut Tally,
    settings: Settings,
    on: bool,
    values: Values,
    forced: [Option<u16>; 64],
    /// What was last said of each input; nothing of other variables.
    outside: [Option<u16>; 64],
    /// What each variable last showed.
    shown: [u16; 64],
    /// The values that a start finds.
    kept: [u16; 64],
    /// The values that it may find in their place, after a cut in the last write.
    either: Option<[u16; 64]>,
    cells: Cells,
}

impl<'a> Story<'a> {
    /// As it leaves the factory.
    pub(crate) fn new(
        heap: Global,
        trees: Trees<'a>,
        tally: &'a mut Tally,
        settings: Settings,
    ) -> Story<'a> {
        let firsts = settings.firsts;
        Story {
            heap,
            trees,
            tally,
            settings,
            on: false,
            values: Values {
                vars: [0; 64],
                lamp: false,
            },
            forced: [None; 64],
            outside: settings.inputs.map(|input| input.then_some(0)),
            shown: [0; 64],
            kept: firsts,
            either: None,
            cells: Cells::new(settings.kept as usize, &firsts),
        }
    }

    /// Why an event is refused.
    fn refusal(&self, event: &Event) -> Option<Refusal> {
        match event {
            Event::Start => None,
            _ if !self.on => Some(Refusal::Off),
            Event::Scan(scan) | Event::Cut(scan, _) if scan.elapsed > 65535 => Some(Refusal::Time),
            Event::Force { point, .. } | Event::Free { point } if *point > 63 => {
                Some(Refusal::Point)
            }
            Event::Force { number, .. } if *number > 65535 => Some(Refusal::Number),
            _ => None,
        }
    }

    /// Notes what a line says of the inputs.
    fn note(&mut self, inputs: &[Input]) {
        for input in inputs {
            let outside = &mut self.outside[input.variable.index()];
            *outside = outside.map(|_| input.value);
        }
    }

    /// What the program sees.
    fn seen(&self) -> Values {
        Values {
            vars: overlaid(overlaid(self.values.vars, &self.outside), &self.forced),
            lamp: self.values.lamp,
        }
    }

    /// Do the cells hold the kept values?
    fn cells_agree(&self) -> bool {
        let found = self.cells.recovered();
        found
            .iter()
            .zip(&self.kept)
            .take(self.settings.kept as usize)
            .all(|(found, kept)| *found == u64::from(*kept))
    }

    /// A line with every kept variable.
    fn start_line(&self, kept: &[u16; 64]) -> Result<String, AllocError> {
        let mut line = String::from_str(self.heap, "start:")?;
        for (variable, value) in kept.iter().enumerate().take(self.settings.kept as usize) {
            write!(line, " v{variable} {value}")?;
        }
        Ok(line)
    }

    /// Power comes; the printed line decides between the values that a cut may have left.
    fn start(&mut self, printed: &str) -> Result<String, Trouble> {
        self.tally.count(Met::Start);
        let mut line = self.start_line(&self.kept)?;
        if let Some(new) = self.either.take() {
            let other = self.start_line(&new)?;
            if line.as_str() != printed && other.as_str() == printed {
                self.tally.count(Met::New);
                self.kept = new;
                line = other;
            }
        }
        if line.as_str() == printed && !self.cells_agree() {
            return Err(Trouble::Cells);
        }
        self.wake();
        Ok(line)
    }

    /// Kept variables as they were found, the others as at first, nothing forced, the lamp out.
    fn wake(&mut self) {
        let mut vars = self.settings.firsts;
        let kept = self.kept.iter().take(self.settings.kept as usize);
        for (value, kept) in vars.iter_mut().zip(kept) {
            *value = *kept;
        }
        self.on = true;
        self.values = Values { vars, lamp: false };
        self.forced = [None; 64];
        self.shown = vars;
    }

    /// A line with each variable that shows another value than before, and the lamp if it went on.
    fn scan_line(&self, out: &[u16; 64], lit: bool) -> Result<String, AllocError> {
        let mut line = String::from_str(self.heap, "scan:")?;
        for (variable, (before, after)) in self.shown.iter().zip(out).enumerate() {
            if before != after {
                write!(line, " v{variable} {after}")?;
            }
        }
        if lit {
            line.push_str(" lamp lit")?;
        }
        Ok(line)
    }

    /// A scan that ends.
    fn scan(&mut self, scan: &Scan) -> Result<String, Trouble> {
        self.tally.count(Met::Scan);
        let before = self.values;
        let after = self.trees.run(self.seen(), word(scan.elapsed))?;
        let lit = after.lamp && !before.lamp;
        if lit {
            self.tally.count(Met::Lamp);
        }
        self.values = after;
        self.kept = after.vars;
        self.cells.save(&after.vars, None);
        let out = overlaid(after.vars, &self.forced);
        let line = self.scan_line(&out, lit)?;
        self.shown = out;
        Ok(line)
    }

    /// A scan whose save is cut at a write.
    fn cut(&mut self, scan: &Scan, cut: Cut) -> Result<(), Trouble> {
        let new = self.trees.run(self.seen(), word(scan.elapsed))?.vars;
        let mut whole = self.cells;
        let writes = whole.save(&new, None);
        self.cells.save(&new, Some(cut));
        match cut.write.saturating_add(1).cmp(&writes) {
            Ordering::Less => self.tally.count(Met::Early),
            Ordering::Equal => {
                self.tally.count(Met::Last);
                self.either = Some(new);
            }
            Ordering::Greater => {
                self.tally.count(Met::Late);
                self.kept = new;
            }
        }
        self.on = false;
        Ok(())
    }

    /// What a point is forced to from now on, if to anything.
    fn force(&mut self, point: u64, number: Option<u64>) {
        if let Some(forced) = self.forced.get_mut(point as usize) {
            *forced = number.map(word);
        }
    }

    /// What an event that is not refused does, and the line that it leads to if it does to one.
    fn take(&mut self, event: &Event, printed: &str) -> Result<Option<String>, Trouble> {
        match event {
            Event::Start => return Ok(Some(self.start(printed)?)),
            Event::Scan(scan) => return Ok(Some(self.scan(scan)?)),
            Event::Cut(scan, cut) => self.cut(scan, *cut)?,
            Event::Force { point, number } => {
                self.tally.count(Met::Force);
                self.force(*point, Some(*number));
            }
            Event::Free { point } => {
                self.tally.count(Met::Free);
                self.force(*point, None);
            }
        }
        Ok(None)
    }

    /// The line that an event leads to if it does to one, where the player printed this one next.
    pub(crate) fn tell(&mut self, event: &Event, printed: &str) -> Result<Option<String>, Trouble> {
        self.note(event.inputs());
        match self.refusal(event) {
            None => self.take(event, printed),
            Some(refusal) => {
                self.tally.count(Met::Refused);
                Ok(Some(format!(in self.heap; "{refusal}")?))
            }
        }
    }
}
