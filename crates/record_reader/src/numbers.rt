// What stands at a place of the records, in numbers; specs/Numbers.antt has them.
ghost use Rattle.std.specs.Prelude.{◌≡◌};
ghost use Rattle.record_reader.specs.Numbers.{step_numbers};

use records::Step;

// What was found, and of a record its type, where its bytes start, and how many they are; else these are 0.
// stays: the C interface answers these numbers (`scale_record_at`).
#[repr(C)]
#[derive(Clone, Copy)]
pub struct RecordNumbers {
    pub found: u64,
    pub kind: u64,
    pub start: u64,
    pub size: u64,
}

impl From<Step> for RecordNumbers {
    ghost from_gives = { λ step numbers. numbers ≡ step_numbers step };

    #[tactic(auto, unfolding(crate::specs::Numbers::step_numbers))]
    fn from(step: Step) -> RecordNumbers {
        match step {
            Step::End => RecordNumbers {
                found: 0,
                kind: 0,
                start: 0,
                size: 0,
            },
            Step::Stump => RecordNumbers {
                found: 2,
                kind: 0,
                start: 0,
                size: 0,
            },
            Step::Record { kind, start, size } => RecordNumbers {
                found: 1,
                kind: u64::from(kind),
                // stays: `as`, twice: std has no `From<usize>` for u64, and TryFrom's Err would want an answer.
                start: start as u64,
                size: size as u64,
            },
        }
    }
}
