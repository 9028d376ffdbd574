// The parts of marking and confirming.
ghost use Rattle.std.specs.Prelude.{◌≡◌, Err, IfOk, List, [], ◌++◌, ℕ, ◌-◌, ◌≤◌, length};
ghost use Rattle.flash.specs.Build.{Area};
ghost use Rattle.flash.specs.Base.{build};
ghost use Rattle.plan.specs.Lists.{ok_ops, magic_ops};
ghost use Rattle.plan.specs.Asked.{flash_of};
ghost use Rattle.marking.specs.Marking.{MarkResult, mark_result, ending_of, unless_refused, unmarked, mark_unless_marked, confirmable, confirm_if_needed};
ghost use Rattle.marking.specs.Standing.{standing_of, by_standing};

use answers::{Marked, Refusal};
use fit::Fit;
use flash::{Bytes, End, Geometry, Run};
use marks::Trailer;
use plan::Course;
use trailer::{Magic, Mark};

// 2 and 6, or nothing against it.
#[tactic(auto, unfolding(crate::specs::Standing::standing_of))]
fn standing_of(course: Course) -> Result<(), Refusal>
    ensures { result ≡ standing_of course }
{
    // stays: a match, no closures: it tells what an enum of the definitions comes to, and runs nothing.
    match course {
        Course::Damage => Err(Refusal::Damage),
        Course::FromLineThree(_) | Course::Resume(_) => Err(Refusal::UnderWay),
        _ => Ok(()),
    }
}

// 1, 2 and 6, asked in this order, or the geometry where nothing is against it.
pub fn standing(g: Geometry, slot0: &[u8], slot1: &[u8], scratch: &[u8]) -> Result<Fit, Refusal>
    ensures same { IfOk result (λ fit. fit.g ≡ g) }
    ensures asked { (otherwise : MarkResult) → by_standing result (flash_of slot0.now slot1.now scratch.now) otherwise
        ≡ unless_refused g (flash_of slot0.now slot1.now scratch.now) otherwise }
{
    let Some(fit) = fit::taken(g, slot0.len(), slot1.len(), scratch.len()) else {
        return Err(Refusal::Geometry);
    };
    standing_of(decision::asks(g, slot0, slot1, scratch))?;
    Ok(fit)
}

// stays: no From, as neither an End nor a Result is of this crate.
#[tactic(auto, unfolding(crate::specs::Marking::ending_of))]
fn ending_of(end: End) -> Result<(), Refusal>
    ensures { result ≡ ending_of end }
{
    match end {
        End::Going | End::Stopped => Ok(()),
        End::Unerased => Err(Refusal::Unerased),
    }
}

// What is left of an allowance for the whole list says how much of it was written.
fn written(all: u64, run: Run) -> Marked
    requires { run.left ≤ all }
    ensures { (result.ending ≡ ending_of run.end) × (result.count ≡ all - run.left) }
{
    Marked {
        ending: ending_of(run.end),
        count: all - run.left,
    }
}

fn is_unmarked(fit: Fit, slot1: &[u8]) -> bool
    ensures { result ≡ unmarked fit.g (flash_of [] slot1.now []) }
{
    let t = Trailer::of_slot(fit.g, slot1);
    t.image_ok() == Mark::Unset && t.magic() == Magic::Unset
}

// stays: decision's `is_on_trial` asks the same three: one function for both would be public, with promises of its own, for one line.
fn is_confirmable(fit: Fit, slot0: &[u8]) -> bool
    ensures { result ≡ confirmable fit.g (flash_of slot0.now [] []) }
{
    let t = Trailer::of_slot(fit.g, slot0);
    t.magic() == Magic::Good && t.copy_done() == Mark::Value(1) && t.image_ok() == Mark::Unset
}

// The writes that marking takes.
fn mark_writes(fit: Fit, permanent: bool) -> u64
    ensures { result ≡ length (ok_ops (build fit.g) Area.slot1 permanent ++ magic_ops (build fit.g) Area.slot1) }
{
    // stays: `as`: std has no `From<usize>` for u64, and TryFrom's Err, which never comes, would want an answer.
    let magic = fit.g.units_in(Bytes(16)).0 as u64;
    if permanent { 1 + magic } else { magic }
}

// Marking where no exchange is under way. Slot 0 and scratch, x0 and x2, have no part in it.
pub fn mark_free(fit: Fit, slot1: &mut [u8], permanent: bool) -> Marked
    ensures { (x0 x2 : List ℕ) → mark_result result (flash_of x0 slot1.new x2)
        ≡ mark_unless_marked permanent fit.g (flash_of x0 slot1.old x2) }
{
    if !is_unmarked(fit, slot1) {
        return Marked::from(Refusal::Marks);
    }
    let all = mark_writes(fit, permanent);
    let start = Run {
        left: all,
        end: End::Going,
    };
    written(all, lines::ok_and_magic(fit.g, slot1, permanent, start))
}

// Confirming where no exchange is under way.
pub fn confirm_free(fit: Fit, slot0: &mut [u8]) -> Marked
    ensures { (x1 x2 : List ℕ) → mark_result result (flash_of slot0.new x1 x2)
        ≡ confirm_if_needed fit.g (flash_of slot0.old x1 x2) }
{
    if !is_confirmable(fit, slot0) {
        return Marked::from(Refusal::Needs);
    }
    let start = Run {
        left: 1,
        end: End::Going,
    };
    written(
        1,
        writes::write_ok(fit.g, slot0, fit.g.last_sector(), true, start),
    )
}
