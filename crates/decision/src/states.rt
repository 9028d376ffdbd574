// C: the states of document 003, by the trailer sectors of slot 0 and slot 1.
ghost use Rattle.std.specs.Prelude.{◌≡◌};
ghost use Rattle.flash.specs.Base.{build};
ghost use Rattle.plan.specs.Decision.{state_c};
ghost use Rattle.decision.specs.StateLaws.{on_trial};

use marks::Trailer;
use plan::Course;
use trailer::{Magic, Mark};

// Whether the firmware in slot 0 is there on trial, and nobody has confirmed it.
#[tactic(auto, unfolding(trailer::specs::Trailer::is_good, trailer::specs::Trailer::is_unset, trailer::specs::Trailer::has_value))]
fn is_on_trial(t0: Trailer) -> bool
    ensures { result ≡ on_trial (build t0.entry.g) t0.entry.bytes.now }
{
    t0.magic() == Magic::Good && t0.image_ok() == Mark::Unset && t0.copy_done() == Mark::Value(1)
}

// slot1 is the bytes of slot 1's trailer sector, which has slot 0's geometry.
#[tactic(auto, using(crate::specs::StateLaws::revert_by), unfolding(plan::specs::Decision::state_c, trailer::specs::Trailer::is_good, trailer::specs::Trailer::is_no_magic, trailer::specs::Trailer::is_unset, trailer::specs::Trailer::has_value))]
pub fn state_c(t0: Trailer, slot1: &[u8]) -> Course
    ensures { result ≡ state_c (build t0.entry.g) t0.entry.bytes.now slot1.now }
{
    let t1 = Trailer {
        g: t0.g,
        bytes: slot1,
    };
    match (t1.magic(), t1.image_ok()) {
        // State I, state II, state III.
        (Magic::Good, Mark::Unset) => Course::Test,
        (Magic::Good, Mark::Value(1)) => Course::Permanent,
        (Magic::Unset, _) if is_on_trial(t0) => Course::Revert,
        _ => Course::Nothing,
    }
}
