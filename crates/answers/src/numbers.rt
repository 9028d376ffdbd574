// Document 01's numbers of what the loader answers; specs/Numbers.antt has them.
ghost use Rattle.std.specs.Prelude.{◌≡◌};
ghost use Rattle.answers.specs.Numbers.{done_number, refusal_number, refusal_cause, answer_numbers, marked_numbers};

use crate::{Answer, Marked, Outcome, Refusal};
use plan::Done;

// The answer of a start; a field that does not apply is 0.
// stays: numbers, here and in `MarkNumbers`: they are the C interface (`scale_answer` and `scale_marked` of include/scale.h).
#[repr(C)]
#[derive(Clone, Copy)]
pub struct Numbers {
    pub done: u64,
    pub found: u64,
    pub count: u64,
    pub end: u64,
    pub offset: u64,
    pub refusal: u64,
    pub cause: u64,
}

// The answer of marking and confirming.
#[repr(C)]
#[derive(Clone, Copy)]
pub struct MarkNumbers {
    pub refusal: u64,
    pub count: u64,
}

// stays: a From would stand in plan, which holds definitions alone, and done(..) reads as plainly.
fn done(done: Done) -> u64
    ensures { result ≡ done_number done }
{
    match done {
        Done::None => 0,
        Done::Test => 1,
        Done::Permanent => 2,
        Done::Revert => 3,
        Done::Resumed => 4,
        Done::Cleared => 5,
    }
}

impl From<Refusal> for u64 {
    ghost from_gives = { λ refusal number. number ≡ refusal_number refusal };

    fn from(refusal: Refusal) -> u64 {
        match refusal {
            Refusal::Geometry => 1,
            Refusal::Damage => 2,
            Refusal::Header => 3,
            Refusal::Image(_) => 4,
            Refusal::Marks => 5,
            Refusal::UnderWay => 6,
            Refusal::Needs => 7,
            Refusal::Unerased => 8,
        }
    }
}

// The number of the cause that the check gave, if it is what refused.
// stays: no From, which for a u64 is the number of the refusal itself.
fn cause(refusal: Refusal) -> u64
    ensures { result ≡ refusal_cause refusal }
{
    match refusal {
        Refusal::Image(cause) => u64::from(u32::from(cause)),
        _ => 0,
    }
}

impl From<Answer> for Numbers {
    ghost from_gives = { λ answer numbers. numbers ≡ answer_numbers answer };

    fn from(answer: Answer) -> Numbers {
        // stays: `as`, here and below: std has no `From<usize>` for u64, and TryFrom's Err, which never comes, would want an answer.
        let booted = Numbers {
            done: done(answer.done),
            found: answer.found as u64,
            count: answer.count,
            end: 0,
            offset: 0,
            refusal: 0,
            cause: 0,
        };
        match answer.outcome {
            Outcome::Boot(offset) => Numbers {
                offset: offset as u64,
                ..booted
            },
            Outcome::Stopped => Numbers { end: 1, ..booted },
            Outcome::Refused(refusal) => Numbers {
                end: 2,
                refusal: refusal.into(),
                cause: cause(refusal),
                ..booted
            },
        }
    }
}

impl From<Marked> for MarkNumbers {
    ghost from_gives = { λ marked numbers. numbers ≡ marked_numbers marked };

    fn from(marked: Marked) -> MarkNumbers {
        MarkNumbers {
            refusal: match marked.ending {
                Ok(()) => 0,
                Err(refusal) => refusal.into(),
            },
            count: marked.count,
        }
    }
}
