// A, B and C, by the trailer sectors of the three areas: t0 of slot 0, t1 of slot 1, t2 of scratch.
#![tactic(auto)]

ghost use Rattle.std.specs.Prelude.{◌≡◌};
ghost use Rattle.flash.specs.Base.{build};
ghost use Rattle.flash.specs.Small.{Small};
ghost use Rattle.plan.specs.Decision.{step_a};
ghost use Rattle.plan.specs.Asked.{flash_of, asked_by};

pub mod course;
mod resumption;
mod states;

use crate::resumption::step_b;
use crate::states::state_c;
use flash::Geometry;
use marks::Trailer;
use plan::Course;
use trailer::{Magic, Mark};

#[tactic(auto, unfolding(plan::specs::Decision::step_a, trailer::specs::Trailer::is_unset, trailer::specs::Trailer::has_value))]
fn step_a(t2: Trailer) -> Course
    ensures { result ≡ step_a (build t2.entry.g) t2.entry.bytes.now }
{
    match t2.image_ok() {
        Mark::Unset => Course::FromLineThree(false),
        Mark::Value(1) => Course::FromLineThree(true),
        _ => Course::Damage,
    }
}

// The course that the three areas ask for, before slot 1's image is checked.
pub fn asks(g: Geometry, slot0: &[u8], slot1: &[u8], scratch: &[u8]) -> Course
    requires { Small g }
    ensures { result ≡ asked_by g (flash_of slot0.now slot1.now scratch.now) }
{
    let t0 = Trailer::of_slot(g, slot0);
    let t1 = Trailer::of_slot(g, slot1);
    let t2 = Trailer::of_scratch(g, scratch);
    // Scratch is asked before slot 0, whose trailer may be erased and half written while scratch's magic is Good.
    if t2.magic() == Magic::Good {
        step_a(t2)
    } else {
        step_b(t0, state_c(t0, t1.bytes))
    }
}
