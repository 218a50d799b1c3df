//! A script followed event by event: the answer has the story's lines and no others.
use crate::script::Event;
use crate::story::Story;
use crate::trouble::Trouble;

impl Story<'_> {
    /// Follows one event; answers what is left of the answer.
    fn follow_event<'t>(&mut self, event: &Event, answer: &'t str) -> Result<&'t str, Trouble> {
        let (printed, after) = answer.split_once('\n').unwrap_or((answer, ""));
        match self.tell(event, printed)? {
            None => Ok(answer),
            Some(line) if line.as_str() == printed => Ok(after),
            Some(line) => Err(Trouble::Line(line)),
        }
    }

    /// Follows a script to its end.
    pub(crate) fn follow(mut self, events: &[Event], answer: &str) -> Result<(), Trouble> {
        let mut rest = answer;
        for event in events {
            rest = self.follow_event(event, rest)?;
        }
        if rest.is_empty() {
            Ok(())
        } else {
            Err(Trouble::End)
        }
    }
}
