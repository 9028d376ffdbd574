// The parts of a power-up, for a geometry and areas that are taken.
ghost use Rattle.std.specs.Prelude.{◌≡◌, true, []};
ghost use Rattle.flash.specs.Base.{build};
ghost use Rattle.causes.specs.Check.{accepted, head, check};
ghost use Rattle.plan.specs.Asked.{flash_of};
ghost use Rattle.plan.specs.Bounds.{in_bounds};
ghost use Rattle.plan.specs.Decision.{decide};
ghost use Rattle.loader.specs.PowerUp.{result_of, started, data_of, ended, carried, answered, on_course};

use answers::{Answer, Outcome, Refusal};
use fit::Fit;
use flash::{End, Run};
use plan::Course;

// The data bytes of a slot.
fn data_of(fit: Fit, slot: &[u8]) -> &[u8]
    ensures { result.now ≡ data_of fit.g slot.now }
{
    &slot[..fit.g.data_bytes().0.min(slot.len())]
}

fn slot_accepted(fit: Fit, slot: &[u8]) -> bool
    ensures { result ≡ accepted (data_of fit.g slot.now) }
{
    image::check(data_of(fit, slot)).is_ok()
}

// A, B and C, and the image check where C asks for it.
fn decided(fit: Fit, slot0: &[u8], slot1: &[u8], scratch: &[u8]) -> Course
    ensures { (result ≡ decide accepted (build fit.g) (flash_of slot0.now slot1.now scratch.now)) ×
        (in_bounds (build fit.g) result ≡ true) }
{
    let asked = decision::asks(fit.g, slot0, slot1, scratch);
    if decision::course::wants_check(asked) {
        decision::course::judge(slot_accepted(fit, slot1), asked)
    } else {
        asked
    }
}

// D for the data bytes of slot 0, with their check if it is chosen.
#[tactic(auto, unfolding(crate::specs::PowerUp::started, crate::specs::PowerUp::judged_start))]
fn boot_data(image: &[u8], checked: bool) -> Outcome
    ensures { result ≡ started checked (head image.now) (check image.now) }
{
    let Ok(sizes) = image::header::head(image) else {
        return Outcome::Refused(Refusal::Header);
    };
    if checked {
        if let Err(cause) = image::check(image) {
            return Outcome::Refused(Refusal::Image(cause));
        }
    }
    Outcome::Boot(sizes.header)
}

#[tactic(auto, unfolding(crate::specs::PowerUp::ended, crate::specs::PowerUp::boot_of))]
fn outcome_of(fit: Fit, slot0: &[u8], end: End, checked: bool) -> Outcome
    ensures { result ≡ ended checked fit.g (flash_of slot0.now [] []) end }
{
    match end {
        End::Going => boot_data(data_of(fit, slot0), checked),
        End::Stopped => Outcome::Stopped,
        End::Unerased => Outcome::Refused(Refusal::Unerased),
    }
}

// The list of a course under the allowance, and what comes of it.
fn take_course(
    fit: Fit,
    course: Course,
    slot0: &mut [u8],
    slot1: &mut [u8],
    scratch: &mut [u8],
    allowance: u64,
    checked: bool,
) -> Answer
    requires { in_bounds (build fit.g) course ≡ true }
    ensures { result_of result (flash_of slot0.new slot1.new scratch.new)
        ≡ answered checked fit.g allowance course (carried fit.g allowance
        (flash_of slot0.old slot1.old scratch.old) course) }
{
    let all = Run {
        left: allowance,
        end: End::Going,
    };
    let run = carry::carry_out(fit.g, course, slot0, slot1, scratch, all);
    Answer {
        done: decision::course::done_of(course),
        found: decision::course::found_of(course),
        count: allowance - run.left,
        outcome: outcome_of(fit, slot0, run.end, checked),
    }
}

// Refusal 2 before anything is written, or the list in force.
pub fn start_taken(
    fit: Fit,
    slot0: &mut [u8],
    slot1: &mut [u8],
    scratch: &mut [u8],
    allowance: u64,
    checked: bool,
) -> Answer
    ensures { result_of result (flash_of slot0.new slot1.new scratch.new)
        ≡ on_course checked fit.g allowance (flash_of slot0.old slot1.old scratch.old)
        (decide accepted (build fit.g) (flash_of slot0.old slot1.old scratch.old)) }
{
    let course = decided(fit, slot0, slot1, scratch);
    if course == Course::Damage {
        Answer::from(Refusal::Damage)
    } else {
        take_course(fit, course, slot0, slot1, scratch, allowance, checked)
    }
}
