//! Scripts: texts with an event to a line.
ghost use Rattle.std.specs.Prelude.{◌≡◌, ◌+◌, ◌^◌, ◌<◌, [], ◌++◌, map, length, Ok};
ghost use Rattle.lines.specs.Reading.{took, left, Answers, Reads, and_ok};
ghost use Rattle.scripts.specs.Script.{request, take_pairs, take_inputs, take_scan, take_cut, take_force, take_free, take_request, read_line, read_script};
ghost use Rattle.std.specs.Option.{option_to_list};

use lines::line::{Line, Lines};
use lines::words::ReadError;
use std::alloc::Global;

/// A variable, and the word that comes in at it.
#[derive(Clone, Copy)]
pub struct Input {
    pub variable: u8,
    pub value: u16,
}

/// What a line of a script asks of the controller. Times, points and numbers are as they are written, so that the controller refuses them.
#[derive(Drop)]
pub enum Event {
    Start,
    Scan {
        elapsed: u64,
        inputs: Vec<Input>,
    },
    Cut {
        elapsed: u64,
        at: u64,
        junk: u64,
        inputs: Vec<Input>,
    },
    Force {
        point: u64,
        number: u64,
    },
    Free {
        point: u64,
    },
}

/// A line of a script as it is read, and the heap for the inputs that it names.
#[derive(Drop)]
struct EventLine<'a> {
    heap: Global,
    words: Line<'a>,
}

impl EventLine<'_> {
    /// Variables with values up to the end of the line.
    fn read_pairs(&mut self) -> Result<Vec<Input>, ReadError>
        ensures { Answers (Unit {0}) result (λ v. took v.items (left self.new.words)) (take_pairs [] (left self.old.words)) }
    {
        let mut inputs = Vec::new(self.heap);
        while !self.words.at_end() {
            let variable = self.words.variable()?;
            let value = self.words.value()?;
            inputs.push(Input { variable, value })?;
        }
        Ok(inputs)
    }

    /// Inputs after a colon, which may be left out where there are none.
    fn read_inputs(&mut self) -> Result<Vec<Input>, ReadError>
        ensures { Answers (Unit {0}) result (λ v. took v.items (left self.new.words)) (take_inputs (left self.old.words)) }
    {
        if self.words.at_end() {
            return Ok(Vec::new(self.heap));
        }
        self.words.keyword(":")?;
        self.read_pairs()
    }

    /// The word `scan` was read.
    fn read_scan(&mut self) -> Result<Event, ReadError>
        ensures { Answers (Unit {0}) result (λ e. took (request e) (left self.new.words)) (take_scan (left self.old.words)) }
    {
        let elapsed = self.words.number()?;
        let inputs = self.read_inputs()?;
        Ok(Event::Scan { elapsed, inputs })
    }

    /// The word `cut` was read.
    fn read_cut(&mut self) -> Result<Event, ReadError>
        ensures { Answers (Unit {0}) result (λ e. took (request e) (left self.new.words)) (take_cut (left self.old.words)) }
    {
        let elapsed = self.words.number()?;
        self.words.keyword("at")?;
        let at = self.words.number()?;
        self.words.keyword("junk")?;
        let junk = self.words.number()?;
        let inputs = self.read_inputs()?;
        Ok(Event::Cut {
            elapsed,
            at,
            junk,
            inputs,
        })
    }

    /// The word `force` was read.
    fn read_force(&mut self) -> Result<Event, ReadError>
        ensures { Answers ⊥ result (λ e. took (request e) (left self.new.words)) (take_force (left self.old.words)) }
    {
        let point = self.words.name()?;
        let number = self.words.number()?;
        Ok(Event::Force { point, number })
    }

    /// The word `free` was read.
    fn read_free(&mut self) -> Result<Event, ReadError>
        ensures { Answers ⊥ result (λ e. took (request e) (left self.new.words)) (take_free (left self.old.words)) }
    {
        let point = self.words.name()?;
        Ok(Event::Free { point })
    }

    /// The event that the line begins with.
    fn read_event(&mut self) -> Result<Event, ReadError>
        ensures { Answers (Unit {0}) result (λ e. took (request e) (left self.new.words)) (take_request (left self.old.words)) }
    {
        let word = self.words.word()?;
        match word.text {
            "start" => Ok(Event::Start),
            "scan" => self.read_scan(),
            "cut" => self.read_cut(),
            "force" => self.read_force(),
            "free" => self.read_free(),
            _ => Err(word.misfit()),
        }
    }
}

/// The event of a whole line; none if the line is blank.
#[tactic(auto, unfolding(lines::specs::Reading::left, crate::specs::Script::read_line))]
fn event_of_line(heap: Global, line: Line<'_>) -> Result<Option<Event>, ReadError>
    ensures { Reads (Unit {0}) result (λ o. map request (option_to_list o)) (read_line line.entry.at line.entry.text.now) }
{
    let mut line = EventLine { heap, words: line };
    if line.words.at_end() {
        return Ok(None);
    }
    let event = line.read_event()?;
    line.words.end()?;
    Ok(Some(event))
}

/// The events of a script. One that can't be read is refused at its first word that does not fit.
pub fn read_script(heap: Global, text: &str) -> Result<Vec<Event>, ReadError>
    ensures { Reads (Unit {0}) result (λ v. map request v.items) (read_script text.now) }
{
    let mut events = Vec::new(heap);
    for line in Lines::new(text) {
        if let Some(event) = event_of_line(heap, line)? {
            events.push(event)?;
        }
    }
    Ok(events)
}
