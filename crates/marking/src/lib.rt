// Marking and confirming; specs/Marking.antt says what each does.
#![tactic(auto)]

ghost use Rattle.std.specs.Prelude.{◌≡◌};
ghost use Rattle.plan.specs.Asked.{flash_of};
ghost use Rattle.marking.specs.Marking.{mark_result, marking, confirming};

use answers::Marked;
use flash::Geometry;

mod taken;

// Marks slot 1 for a test or a permanent exchange.
pub fn mark(g: Geometry, slot0: &[u8], slot1: &mut [u8], scratch: &[u8], permanent: bool) -> Marked
    ensures { mark_result result (flash_of slot0.now slot1.new scratch.now)
        ≡ marking permanent g (flash_of slot0.now slot1.old scratch.now) }
{
    match taken::standing(g, slot0, slot1, scratch) {
        Ok(fit) => taken::mark_free(fit, slot1, permanent),
        Err(refusal) => Marked::from(refusal),
    }
}

// Confirms the firmware in slot 0.
pub fn confirm(g: Geometry, slot0: &mut [u8], slot1: &[u8], scratch: &[u8]) -> Marked
    ensures { mark_result result (flash_of slot0.new slot1.now scratch.now)
        ≡ confirming g (flash_of slot0.old slot1.now scratch.now) }
{
    match taken::standing(g, slot0, slot1, scratch) {
        Ok(fit) => taken::confirm_free(fit, slot0),
        Err(refusal) => Marked::from(refusal),
    }
}
