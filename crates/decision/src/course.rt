// What follows from the course that a power-up takes.
ghost use Rattle.std.specs.Prelude.{◌≡◌};
ghost use Rattle.plan.specs.Decision.{judged, done_of, found_of};
ghost use Rattle.plan.specs.Asked.{asks_check};

use plan::{Course, Done};

// Whether the image in slot 1 is to be checked.
#[tactic(auto, unfolding(plan::specs::Asked::asks_check))]
pub fn wants_check(course: Course) -> bool
    ensures { result ≡ asks_check course }
{
    matches!(course, Course::Test | Course::Permanent | Course::Revert)
}

// The course after the check's answer.
#[tactic(auto, using(crate::specs::CourseLaws::judged_by))]
pub fn judge(accepted: bool, course: Course) -> Course
    ensures { result ≡ judged accepted course }
{
    if !accepted && wants_check(course) {
        Course::Clear
    } else {
        course
    }
}

// stays: as a From<Course> it would stand in plan, which holds definitions alone, and done_of(course) reads as plainly.
#[tactic(auto, unfolding(plan::specs::Decision::done_of))]
pub fn done_of(course: Course) -> Done
    ensures { result ≡ done_of course }
{
    // stays: a match, no closures, here and in `found_of`: they tell what an enum of the definitions comes to, and run nothing.
    match course {
        Course::Damage | Course::Nothing => Done::None,
        Course::FromLineThree(_) | Course::Resume(_) => Done::Resumed,
        Course::Test => Done::Test,
        Course::Permanent => Done::Permanent,
        Course::Revert => Done::Revert,
        Course::Clear => Done::Cleared,
    }
}

// How many marks were found: 0 unless an exchange is continued.
#[tactic(auto, unfolding(plan::specs::Decision::found_of))]
pub fn found_of(course: Course) -> usize
    ensures { result ≡ found_of course }
{
    match course {
        Course::Resume(c) => c,
        _ => 0,
    }
}
