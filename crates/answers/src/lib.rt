// What the loader answers.
#![tactic(auto)]

ghost use Rattle.std.specs.Prelude.{◌≡◌, Err};

use causes::Cause;
use plan::Done;

pub mod numbers;

// Why a request is refused; specs/Numbers.antt gives document 01's numbers.
#[derive(Clone, Copy)]
pub enum Refusal {
    // geometry or area lengths wrong
    Geometry,
    // damage under A or B
    Damage,
    // slot 0 would meet cause 1 or 2
    Header,
    // the check of slot 0 gave this cause
    Image(Cause),
    // slot 1's image ok or magic is not Unset
    Marks,
    // an exchange is under way
    UnderWay,
    // what confirming needs is not there
    Needs,
    // a unit to be written is not erased
    Unerased,
}

// How a power-up ends.
// stays: three cases, each with a name: a Result would hide the stop in an Ok or an Err.
#[derive(Clone, Copy)]
pub enum Outcome {
    Boot(usize),
    Stopped,
    Refused(Refusal),
}

#[derive(Clone, Copy)]
pub struct Answer {
    pub done: Done,
    pub found: usize,
    pub count: u64,
    pub outcome: Outcome,
}

// Nothing was done.
impl From<Refusal> for Answer {
    ghost use Rattle.plan.specs.declared.Done.{Done};
    ghost use Rattle.answers.specs.declared.Outcome.{Outcome};

    ghost from_gives = { λ refusal answer. (answer.done ≡ Done.None) × ((answer.found ≡ 0) × ((answer.count ≡ 0) ×
        (answer.outcome ≡ Outcome.Refused refusal))) };

    fn from(refusal: Refusal) -> Answer {
        Answer {
            done: Done::None,
            found: 0,
            count: 0,
            outcome: Outcome::Refused(refusal),
        }
    }
}

// How marking and confirming end: written, or refused.
#[derive(Clone, Copy)]
pub struct Marked {
    pub ending: Result<(), Refusal>,
    pub count: u64,
}

// Nothing was written.
impl From<Refusal> for Marked {
    ghost from_gives = { λ refusal marked. (marked.ending ≡ Err refusal) × (marked.count ≡ 0) };

    fn from(refusal: Refusal) -> Marked {
        Marked {
            ending: Err(refusal),
            count: 0,
        }
    }
}
