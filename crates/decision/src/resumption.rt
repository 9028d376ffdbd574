// B: whether an exchange is continued, by slot 0's trailer sector t0.
ghost use Rattle.std.specs.Prelude.{◌≡◌};
ghost use Rattle.flash.specs.Base.{build};
ghost use Rattle.flash.specs.Small.{Small};
ghost use Rattle.plan.specs.Decision.{continue, step_b};
ghost use Rattle.plan.specs.DecisionLaws.{marks_read};
ghost use Rattle.decision.specs.FollowLaws.{followed};

use flash::Geometry;
use marks::Trailer;
use plan::Course;
use trailer::{Magic, Mark};

// B's answer for a run of c marks.
fn follow(g: Geometry, c: usize, otherwise: Course) -> Course
    requires { Small g }
    ensures { result ≡ followed (build g) c otherwise }
{
    match c {
        0 => otherwise,
        3.. if c <= 3 * g.sectors => Course::Resume(c),
        _ => Course::Damage,
    }
}

fn continue_run(t0: Trailer, c: usize, otherwise: Course) -> Course
    ensures { result ≡ continue (build t0.entry.g) t0.entry.bytes.now c otherwise }
{
    if t0.legal_run(c) {
        follow(t0.g, c, otherwise)
    } else {
        Course::Damage
    }
}

// Whether B reads the marks.
#[tactic(auto, unfolding(trailer::specs::Trailer::is_good, trailer::specs::Trailer::is_unset))]
fn is_unfinished(t0: Trailer) -> bool
    ensures { result ≡ marks_read (build t0.entry.g) t0.entry.bytes.now }
{
    t0.magic() == Magic::Good && t0.copy_done() == Mark::Unset
}

// otherwise is the course of C, for where no exchange is under way.
#[tactic(auto, unfolding(plan::specs::Decision::step_b))]
pub fn step_b(t0: Trailer, otherwise: Course) -> Course
    ensures { result ≡ step_b (build t0.entry.g) t0.entry.bytes.now otherwise }
{
    if is_unfinished(t0) {
        continue_run(t0, t0.written_marks(), otherwise)
    } else {
        otherwise
    }
}
