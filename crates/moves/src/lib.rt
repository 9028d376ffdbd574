// The data exchange: the moves, each with its mark, and copy done.
#![tactic(auto)]

ghost use Rattle.std.specs.Prelude.{◌≡◌, ◌*◌, ◌-◌, ◌%◌, ◌≤◌, ◌<◌, drop};
ghost use Rattle.flash.specs.Build.{Area};
ghost use Rattle.flash.specs.Base.{build, all_moves};
ghost use Rattle.flash.specs.Small.{Small};
ghost use Rattle.flash.specs.Operations.{local, step, steps};
ghost use Rattle.trailer.specs.Trailer.{copy_done_at};
ghost use Rattle.plan.specs.Lists.{mark, progress, move_ops, data_ops};
ghost use Rattle.writes.specs.Steps.{move_in};
ghost use Rattle.moves.specs.Moves.{marked_sector, move_of};
ghost use Rattle.moves.specs.Areas.{state};

use flash::{Geometry, Run, Sector};
use marks::part::Part;

// A sector's bytes go to an erased sector of another area.
#[tactic(auto, unfolding(writes::specs::Steps::move_in))]
fn move_sector(g: Geometry, src: &[u8], from: Sector, dst: &mut [u8], to: Sector, run: Run) -> Run
    requires small { Small g }
    requires from_bound { (from.0 ≤ 127) × (to.0 ≤ 127) }
    ensures { local dst.new result ≡ move_in g src.now from to (local dst.old run) }
{
    let erased = operations::erase(g, dst, to, run);
    let at = g.place_of(g.first_unit(from));
    let units = g.units_per_sector();
    operations::write_units(g, src, at, dst, g.first_unit(to), units, erased)
}

// The sector that mark number k is of.
fn marked_sector(g: Geometry, k: usize) -> Sector
    requires small { Small g }
    requires k_bound { k < 3 * g.sectors }
    ensures { result ≡ marked_sector g k }
{
    Sector(g.last_sector().0 - k / 3)
}

// The move whose mark has number k, without its mark.
// stays: the three areas are three parameters, as in carry (src/lib.rt there says why).
fn one_move(
    g: Geometry,
    k: usize,
    slot0: &mut [u8],
    slot1: &mut [u8],
    scratch: &mut [u8],
    run: Run,
) -> Run
    requires small { Small g }
    requires k_bound { k < 3 * g.sectors }
    ensures { state slot0.new slot1.new scratch.new result
        ≡ steps (build g) (move_ops (build g) (move_of (marked_sector g k) (k % 3)))
        (state slot0.old slot1.old scratch.old run) }
{
    let i = marked_sector(g, k);
    // stays: a match, no closures: each arm lends other areas, and what is done with them stands once, in `move_sector`.
    match k % 3 {
        0 => move_sector(g, slot1, i, scratch, Sector(0), run),
        1 => move_sector(g, slot0, i, slot1, i, run),
        _ => move_sector(g, scratch, Sector(0), slot0, i, run),
    }
}

fn marked_move(
    g: Geometry,
    k: usize,
    slot0: &mut [u8],
    slot1: &mut [u8],
    scratch: &mut [u8],
    run: Run,
) -> Run
    requires small { Small g }
    requires k_bound { k < 3 * g.sectors }
    ensures { state slot0.new slot1.new scratch.new result
        ≡ step (build g) (progress (build g) k) (steps (build g) (move_ops (build g) (move_of (marked_sector g k) (k % 3)))
        (state slot0.old slot1.old scratch.old run)) }
{
    let moved = one_move(g, k, slot0, slot1, scratch, run);
    writes::write_progress(g, slot0, k, moved)
}

// The moves from mark number c on, each with its mark; what is left is copy done.
#[tactic(auto, using(crate::specs::Areas::next_mark, crate::specs::Areas::last_mark))]
fn moves_from(
    g: Geometry,
    c: usize,
    slot0: &mut [u8],
    slot1: &mut [u8],
    scratch: &mut [u8],
    run: Run,
) -> Run
    requires small { Small g }
    requires le_c { (3 ≤ c) × (c ≤ 3 * g.sectors) }
    ensures { step (build g) (mark (build g) Area.slot0 (copy_done_at (build g)) 1)
        (state slot0.new slot1.new scratch.new result)
        ≡ steps (build g) (data_ops (build g) c (drop (c - 3) (all_moves (g.sectors - 1))))
        (state slot0.old slot1.old scratch.old run) }
{
    let mut r = run;
    for k in c..3 * g.sectors {
        r = marked_move(g, k, slot0, slot1, scratch, r);
    }
    r
}

// The data exchange after c marks.
#[tactic(auto, unfolding(flash::specs::Base::base))]
pub fn data_exchange(
    g: Geometry,
    c: usize,
    slot0: &mut [u8],
    slot1: &mut [u8],
    scratch: &mut [u8],
    run: Run,
) -> Run
    requires small { Small g }
    requires le_c { (3 ≤ c) × (c ≤ 3 * g.sectors) }
    ensures { state slot0.new slot1.new scratch.new result
        ≡ steps (build g) (data_ops (build g) c (drop (c - 3) (all_moves (g.sectors - 1))))
        (state slot0.old slot1.old scratch.old run) }
{
    let moved = moves_from(g, c, slot0, slot1, scratch, run);
    let at = Part::CopyDone.place(g);
    writes::write_mark(g, slot0, g.last_sector(), at, 1, moved)
}
