// A plain start's answer as document 01's line: what was done, c as found, the count, then how it ended and its number.
#![tactic(auto)]

use answers::{Answer, Outcome};
use plan::Done;
use std::fmt;

#[derive(Clone, Copy)]
pub struct Line(pub Answer);

// stays: no Display of Done, which is of plan, and plan holds definitions alone.
fn word(done: Done) -> &'static str {
    match done {
        Done::None => "none",
        Done::Test => "test",
        Done::Permanent => "permanent",
        Done::Revert => "revert",
        Done::Resumed => "resumed",
        Done::Cleared => "cleared",
    }
}

impl fmt::Display for Line {
    fn fmt<W: fmt::Write>(&self, f: &mut fmt::Formatter<W>) -> fmt::Result {
        let answer = self.0;
        write!(
            f,
            "{} {} {} ",
            word(answer.done),
            answer.found,
            answer.count
        )?;
        match answer.outcome {
            Outcome::Boot(offset) => write!(f, "boot {offset}"),
            Outcome::Stopped => write!(f, "stopped 0"),
            Outcome::Refused(refusal) => write!(f, "refused {}", u64::from(refusal)),
        }
    }
}
