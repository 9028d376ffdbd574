// The loader: the plain start and the full start; specs/PowerUp.antt says what each does.
#![tactic(auto)]

ghost use Rattle.std.specs.Prelude.{◌≡◌};
ghost use Rattle.plan.specs.Asked.{flash_of};
ghost use Rattle.loader.specs.PowerUp.{result_of, full_start, power_up};

use answers::{Answer, Refusal};
use flash::Geometry;

mod starts;

// The full start: the list in force under the allowance, and then slot 0 is booted, after its check if that is chosen.
pub fn full_start(
    g: Geometry,
    slot0: &mut [u8],
    slot1: &mut [u8],
    scratch: &mut [u8],
    allowance: u64,
    checked: bool,
) -> Answer
    ensures { result_of result (flash_of slot0.new slot1.new scratch.new)
        ≡ full_start checked g allowance (flash_of slot0.old slot1.old scratch.old) }
{
    match fit::taken(g, slot0.len(), slot1.len(), scratch.len()) {
        Some(fit) => starts::start_taken(fit, slot0, slot1, scratch, allowance, checked),
        None => Answer::from(Refusal::Geometry),
    }
}

// The plain start, which does not check slot 0.
#[tactic(auto, unfolding(crate::specs::PowerUp::power_up))]
pub fn power_up(
    g: Geometry,
    slot0: &mut [u8],
    slot1: &mut [u8],
    scratch: &mut [u8],
    allowance: u64,
) -> Answer
    ensures { result_of result (flash_of slot0.new slot1.new scratch.new)
        ≡ power_up g allowance (flash_of slot0.old slot1.old scratch.old) }
{
    full_start(g, slot0, slot1, scratch, allowance, false)
}
