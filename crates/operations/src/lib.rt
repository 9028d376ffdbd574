// The two operations on a lent area, under an allowance: erase a sector, write units.
#![tactic(auto)]

ghost use Rattle.std.specs.Prelude.{◌≡◌, ◌+◌, ◌*◌, ◌-◌, ◌/◌, ◌≤◌, min, length, ltb};
ghost use Rattle.spans.specs.Bytes.{part, put};
ghost use Rattle.spans.specs.Blanks.{blanks};
ghost use Rattle.spans.specs.Choice.{pick};
ghost use Rattle.flash.specs.Geometry.{place_of, bytes_in, units_in};
ghost use Rattle.flash.specs.Small.{Small};
ghost use Rattle.flash.specs.Operations.{local, going, erase_in, erased, write_all_in};
ghost use Rattle.operations.specs.UnitLaws.{blank_run};

use flash::{Bytes, End, Geometry, Offset, Run, Sector, Unit, Units};

// An erase of a sector, where the allowance and what came before let it come to pass.
#[tactic(auto, using(crate::specs::EraseLaws::erase_late, crate::specs::EraseLaws::erase_done, crate::specs::EraseLaws::erase_ended))]
pub fn erase(g: Geometry, area: &mut [u8], i: Sector, run: Run) -> Run
    requires small { Small g }
    requires i_bound { i.0 ≤ 128 }
    ensures { local area.new result ≡ erase_in g i (local area.old run) }
{
    if run.end != End::Going {
        return run;
    }
    if run.left == 0 {
        return Run {
            end: End::Stopped,
            ..run
        };
    }
    store::fill(area, g.start_of(i).0, g.sector);
    Run {
        left: run.left - 1,
        ..run
    }
}

#[tactic(auto, unfolding(flash::specs::Operations::erased))]
fn is_erased(g: Geometry, area: &[u8], u: Unit) -> bool
    requires small { Small g }
    requires u_bound { u.0 ≤ 8388608 }
    ensures { result ≡ erased g u area.now }
{
    compare::all_blank(area, g.place_of(u).0, g.unit)
}

fn count_blank(g: Geometry, area: &[u8], u: Unit, n: Units) -> Units
    requires small { Small g }
    requires n_bound { u.0 + n.0 ≤ 8388608 }
    ensures { result.0 ≡ blank_run g u n.0 area.now }
{
    for k in 0..n.0 {
        if !is_erased(g, area, u + Units(k)) {
            return Units(k);
        }
    }
    n
}

// How many of the n units from u on are erased, up to the first that is not. They all are but on a flash that nothing here leaves, and
// then one fold over all their bytes tells.
#[tactic(auto, using(crate::specs::UnitLaws::blank_run_same, crate::specs::UnitLaws::blank_run_le))]
fn blank_units(g: Geometry, area: &[u8], u: Unit, n: Units) -> Units
    requires small { Small g }
    requires n_bound { u.0 + n.0 ≤ 8388608 }
    ensures { (result.0 ≡ blank_run g u n.0 area.now) × (result.0 ≤ n.0) }
{
    if compare::all_blank(area, g.place_of(u).0, g.bytes_in(n).0) {
        n
    } else {
        count_blank(g, area, u, n)
    }
}

// How many units an allowance reaches.
// stays: `as`, here and in `settled`: no From leads from u64 to usize or back, and TryFrom's Err, which never comes, would want an answer.
fn reach(left: u64, units: Units) -> Units
    ensures { result.0 ≡ min left units.0 }
{
    Units(left.min(units.0 as u64) as usize)
}

// Of the units that the allowance reaches, some were written: what is left, and how it stands.
fn settled(left: u64, units: Units, reached: Units, written: Units) -> Run
    requires { written.0 ≤ left }
    ensures { (result.left ≡ left - written.0) × (result.end ≡ pick (ltb written.0 reached.0) End.Unerased
        (pick (ltb left units.0) End.Stopped End.Going)) }
{
    let end = if written.0 < reached.0 {
        End::Unerased
    } else if left < units.0 as u64 {
        End::Stopped
    } else {
        End::Going
    };
    Run {
        left: left - written.0 as u64,
        end,
    }
}

// Of the bytes that the units reach, blocks of 512 are looked at and copied in turn, as long as they are erased; how many bytes that were.
fn write_blocks(
    g: Geometry,
    src: &[u8],
    from: Offset,
    dst: &mut [u8],
    to: Unit,
    reached: Units,
) -> Bytes
    requires small { Small g }
    requires reached_bound { to.0 + reached.0 ≤ 8388608 }
    ensures result_value { result.0 ≡ blanks 512 (place_of g to).0 (min (min (bytes_in g reached).0 (length src.now - from.0))
        (length dst.old - (place_of g to).0) / 512) dst.old * 512 }
    ensures result_in_bounds { (result.0 ≤ length src.now - from.0) × ((units_in g result).0 ≤ reached.0) }
    ensures dst_after { dst.new ≡ put dst.old (place_of g to).0 (part src.now from.0 result.0) }
{
    let blocks = store::copy_blank(src, from.0, dst, g.place_of(to).0, g.bytes_in(reached).0);
    Bytes(blocks * 512)
}

// The units of src from from on go to the units of dst from to on.
fn copy_all(g: Geometry, src: &[u8], from: Offset, dst: &mut [u8], to: Unit, units: Units)
    requires small { Small g }
    requires units_bound { to.0 + units.0 ≤ 8388608 }
    ensures { dst.new ≡ put dst.old (place_of g to).0
        (part src.now from.0 (bytes_in g units).0) }
{
    store::copy(src, from.0, dst, g.place_of(to).0, g.bytes_in(units).0);
}

// Of the units of dst from to on, as many as are erased up to the first that is not are given the bytes of src from from on. Behind
// the blocks the erased run is measured, and then copied. It comes to the same as unit after unit.
fn write_erased(
    g: Geometry,
    src: &[u8],
    from: Offset,
    dst: &mut [u8],
    to: Unit,
    reached: Units,
) -> Units
    requires small { Small g }
    requires reached_bound { to.0 + reached.0 ≤ 8388608 }
    ensures result_value { (result.0 ≡ blank_run g to reached.0 dst.old) × (result.0 ≤ reached.0) }
    ensures dst_after { dst.new ≡ put dst.old (place_of g to).0
        (part src.now from.0 (bytes_in g result).0) }
{
    let front = write_blocks(g, src, from, dst, to, reached);
    let done = g.units_in(front);
    let next = to + done;
    let rest = Units(reached.0 - done.0);
    let more = blank_units(g, dst, next, rest);
    copy_all(g, src, from + front, dst, next, more);
    Units(done.0 + more.0)
}

// The units of src from from on go to the units of dst from to on, in rising order, as far as the allowance reaches and the units are
// erased.
fn copy_units(
    g: Geometry,
    src: &[u8],
    from: Offset,
    dst: &mut [u8],
    to: Unit,
    units: Units,
    left: u64,
) -> Run
    requires small { Small g }
    requires units_bound { to.0 + units.0 ≤ 8388608 }
    ensures { local dst.new result ≡ write_all_in g to units.0 (part src.now from.0 (bytes_in g units).0)
        (local dst.old (going left)) }
{
    let reached = reach(left, units);
    let written = write_erased(g, src, from, dst, to, reached);
    settled(left, units, reached, written)
}

// The same after whatever came before.
// stays: an offset beside src, a unit beside dst, as in the functions above: `write_all_in`, `part` and `put` take any, and behind an area's end there is no slice.
#[tactic(auto, using(crate::specs::UnitLaws::ended_run))]
pub fn write_units(
    g: Geometry,
    src: &[u8],
    from: Offset,
    dst: &mut [u8],
    to: Unit,
    units: Units,
    run: Run,
) -> Run
    requires small { Small g }
    requires units_bound { to.0 + units.0 ≤ 8388608 }
    ensures { local dst.new result ≡ write_all_in g to units.0 (part src.now from.0 (bytes_in g units).0)
        (local dst.old run) }
{
    if run.end == End::Going {
        copy_units(g, src, from, dst, to, units, run.left)
    } else {
        run
    }
}
