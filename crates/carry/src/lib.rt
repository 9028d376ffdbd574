// The list in force, carried out under an allowance.
#![tactic(auto)]

ghost use Rattle.std.specs.Prelude.{◌≡◌, ℕ, ◌-◌, List, ◌++◌, [], true};
ghost use Rattle.flash.specs.Base.{build, all_moves};
ghost use Rattle.flash.specs.Small.{Small};
ghost use Rattle.flash.specs.Operations.{steps};
ghost use Rattle.plan.specs.Lists.{lines_three_to_six, data_ops, exchange, clear_out};
ghost use Rattle.moves.specs.Areas.{state};
ghost use Rattle.plan.specs.Decision.{list_of, ok_unset};
ghost use Rattle.plan.specs.Asked.{flash_of};
ghost use Rattle.plan.specs.Bounds.{in_bounds};

use flash::{Geometry, Run, Sector};
use marks::Trailer;
use plan::Course;
use trailer::Mark;

// stays: three parameters for the areas, with g and run beside them, here, in moves, loader, marking and decision: a struct of three `&mut`
// wants three clauses more (`.ghost_name`) of each function, and those that read alone are called beside these with the same three.

// Lines 3 to 6 of the trailer exchange.
#[tactic(auto, unfolding(flash::specs::Base::base))]
fn lines_three_to_six(
    g: Geometry,
    slot0: &mut [u8],
    slot1: &mut [u8],
    scratch: &mut [u8],
    lasting: bool,
    run: Run,
) -> Run
    requires { Small g }
    ensures { state slot0.new slot1.new scratch.new result
        ≡ steps (build g) (lines_three_to_six (build g) lasting)
        (state slot0.old slot1.old scratch.old run) }
{
    let last = g.last_sector();
    let three = operations::erase(g, slot1, last, run);
    let four = operations::erase(g, slot0, last, three);
    let five = lines::line_five(g, slot0, lasting, four);
    operations::erase(g, scratch, Sector(1), five)
}

// The trailer exchange from its third line on, and the data exchange.
#[tactic(auto, using(flash::specs::OperationLaws::steps_append))]
fn from_line_three(
    g: Geometry,
    slot0: &mut [u8],
    slot1: &mut [u8],
    scratch: &mut [u8],
    lasting: bool,
    run: Run,
) -> Run
    requires { Small g }
    ensures { state slot0.new slot1.new scratch.new result
        ≡ steps (build g) (lines_three_to_six (build g) lasting ++ data_ops (build g) 3 (all_moves (g.sectors - 1)))
        (state slot0.old slot1.old scratch.old run) }
{
    let trailers = lines_three_to_six(g, slot0, slot1, scratch, lasting, run);
    moves::data_exchange(g, 3, slot0, slot1, scratch, trailers)
}

fn whole_exchange(
    g: Geometry,
    slot0: &mut [u8],
    slot1: &mut [u8],
    scratch: &mut [u8],
    lasting: bool,
    run: Run,
) -> Run
    requires { Small g }
    ensures { state slot0.new slot1.new scratch.new result
        ≡ steps (build g) (exchange (build g) lasting) (state slot0.old slot1.old scratch.old run) }
{
    let begun = lines::lines_one_two(g, scratch, lasting, run);
    from_line_three(g, slot0, slot1, scratch, lasting, begun)
}

// The clear-out. Scratch, x2, has no part in it.
#[tactic(auto, unfolding(flash::specs::Base::base))]
fn clear_out(g: Geometry, slot0: &mut [u8], slot1: &mut [u8], unset: bool, run: Run) -> Run
    requires { Small g }
    ensures { (x2 : List ℕ) → state slot0.new slot1.new x2 result
        ≡ steps (build g) (clear_out (build g) unset) (state slot0.old slot1.old x2 run) }
{
    let last = g.last_sector();
    let sectors = lines::erase_sectors(g, slot1, last, run);
    let ok = writes::write_ok(g, slot0, last, unset, sectors);
    operations::erase(g, slot1, last, ok)
}

// Whether slot 0's image ok is Unset, for the clear-out.
fn ok_is_unset(g: Geometry, slot0: &[u8]) -> bool
    requires { Small g }
    ensures { result ≡ ok_unset (build g) (flash_of slot0.now [] []) }
{
    Trailer::of_slot(g, slot0).image_ok() == Mark::Unset
}

#[tactic(auto, unfolding(plan::specs::Decision::list_of, plan::specs::Decision::ok_unset, trailer::specs::Trailer::trailer, flash::specs::Operations::steps, flash::specs::Base::base), using(plan::specs::Bounds::resumed_bounds))]
pub fn carry_out(
    g: Geometry,
    course: Course,
    slot0: &mut [u8],
    slot1: &mut [u8],
    scratch: &mut [u8],
    run: Run,
) -> Run
    requires small { Small g }
    requires course_value { in_bounds (build g) course ≡ true }
    ensures { state slot0.new slot1.new scratch.new result
        ≡ steps (build g) (list_of (build g) (ok_unset (build g) (flash_of slot0.old slot1.old scratch.old))
        course) (state slot0.old slot1.old scratch.old run) }
{
    // stays: a match, no closures: the lists are those of the definitions' enum, and a closure would have to borrow the three areas.
    match course {
        Course::FromLineThree(lasting) => from_line_three(g, slot0, slot1, scratch, lasting, run),
        Course::Resume(c) => moves::data_exchange(g, c, slot0, slot1, scratch, run),
        Course::Test => whole_exchange(g, slot0, slot1, scratch, false, run),
        Course::Permanent | Course::Revert => whole_exchange(g, slot0, slot1, scratch, true, run),
        Course::Clear => {
            let unset = ok_is_unset(g, slot0);
            clear_out(g, slot0, slot1, unset, run)
        }
        Course::Damage | Course::Nothing => run,
    }
}
