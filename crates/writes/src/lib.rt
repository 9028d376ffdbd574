// Marks, image ok and magic, written in the trailer sector of one area.
#![tactic(auto)]

ghost use Rattle.std.specs.Prelude.{◌≡◌, ◌+◌, ◌*◌, ◌-◌, ◌%◌, ◌≤◌, ◌<◌};
ghost use Rattle.flash.specs.Geometry.{start_of, unit_at, after};
ghost use Rattle.flash.specs.Build.{Area, trailer_sector};
ghost use Rattle.flash.specs.Base.{build};
ghost use Rattle.flash.specs.Small.{Small};
ghost use Rattle.flash.specs.Operations.{local};
ghost use Rattle.trailer.specs.Trailer.{mark_at};
ghost use Rattle.writes.specs.InArea.{mark_in, ok_in, magic_in};

use flash::{Bytes, Geometry, Offset, Run, Sector, Unit, Units};
use marks::part::Part;

// The unit at an offset into sector i.
fn unit_in(g: Geometry, i: Sector, at: Offset) -> Unit
    requires small { Small g }
    requires i_bound { (i.0 ≤ 127) × (at.0 < g.sector) }
    ensures { (result ≡ unit_at g (after (start_of g i) at)) × (result.0 + (g.sector - at.0) ≤ 8388608) }
{
    g.unit_at(g.start_of(i) + at)
}

#[tactic(auto, unfolding(crate::specs::InArea::mark_in), using(crate::specs::InArea::mark_unit))]
pub fn write_mark(g: Geometry, area: &mut [u8], i: Sector, at: Offset, value: u8, run: Run) -> Run
    requires small { Small g }
    requires i_bound { (i.0 ≤ 127) × (at.0 < g.sector) }
    ensures { local area.new result ≡ mark_in g i at value (local area.old run) }
{
    let bytes = [value, 255, 255, 255, 255, 255, 255, 255];
    let u = unit_in(g, i, at);
    operations::write_units(g, &bytes, Offset(0), area, u, Units(1), run)
}

// Progress mark number k, in slot 0.
#[tactic(auto, unfolding(flash::specs::Base::base), using(marks::specs::PlaceLaws::marks_fit))]
pub fn write_progress(g: Geometry, slot0: &mut [u8], k: usize, run: Run) -> Run
    requires small { Small g }
    requires k_bound { k < 3 * g.sectors }
    ensures { local slot0.new result ≡ mark_in g (trailer_sector (build g) Area.slot0) (mark_at (build g) k) (1 + k % 3)
        (local slot0.old run) }
{
    let at = marks::progress::mark_place(g, k);
    // stays: `as`: it is 1, 2 or 3, and the Err of u8::try_from, which never comes, would want an answer.
    let value = (1 + k % 3) as u8;
    write_mark(g, slot0, g.last_sector(), at, value, run)
}

// Image ok 01, if there is to be one.
// stays: `wanted` is a bool, as the Bool of `ok_in`, `line_five_in` and `lines_one_two_in` in the contracts of lines.
#[tactic(auto, unfolding(crate::specs::InArea::ok_in, flash::specs::Base::base))]
pub fn write_ok(g: Geometry, area: &mut [u8], i: Sector, wanted: bool, run: Run) -> Run
    requires small { Small g }
    requires i_bound { i.0 ≤ 127 }
    ensures { local area.new result ≡ ok_in g i wanted (local area.old run) }
{
    if wanted {
        write_mark(g, area, i, Part::ImageOk.place(g), 1, run)
    } else {
        run
    }
}

#[tactic(auto, unfolding(crate::specs::InArea::magic_in, flash::specs::Base::base), using(crate::specs::Steps::own_bytes))]
pub fn write_magic(g: Geometry, area: &mut [u8], i: Sector, run: Run) -> Run
    requires small { Small g }
    requires i_bound { i.0 ≤ 127 }
    ensures { local area.new result ≡ magic_in g i (local area.old run) }
{
    let bytes = marks::magic::magic_bytes();
    let u = unit_in(g, i, Part::Magic.place(g));
    let units = g.units_in(Bytes(16));
    operations::write_units(g, &bytes, Offset(0), area, u, units, run)
}
