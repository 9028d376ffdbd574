// The lines of the trailer exchange that lie in one area, marking, and erases of the first sectors of an area.
#![tactic(auto)]

ghost use Rattle.std.specs.Prelude.{◌≡◌, ◌≤◌};
ghost use Rattle.flash.specs.Build.{Area, trailer_sector};
ghost use Rattle.flash.specs.Base.{build};
ghost use Rattle.flash.specs.Small.{Small};
ghost use Rattle.flash.specs.Operations.{local};
ghost use Rattle.writes.specs.InArea.{ok_in, magic_in, three_in, lines_one_two_in, line_five_in, erases_in};

use flash::{Geometry, Run, Sector};

#[tactic(auto, unfolding(writes::specs::InArea::three_in, flash::specs::Base::base))]
fn three_marks(g: Geometry, slot0: &mut [u8], run: Run) -> Run
    requires { Small g }
    ensures { local slot0.new result ≡ three_in g (trailer_sector (build g) Area.slot0) (local slot0.old run) }
{
    let first = writes::write_progress(g, slot0, 0, run);
    let second = writes::write_progress(g, slot0, 1, first);
    writes::write_progress(g, slot0, 2, second)
}

// Lines 1 and 2 of the trailer exchange.
#[tactic(auto, unfolding(writes::specs::InArea::lines_one_two_in, flash::specs::Base::base))]
pub fn lines_one_two(g: Geometry, scratch: &mut [u8], lasting: bool, run: Run) -> Run
    requires { Small g }
    ensures { local scratch.new result ≡ lines_one_two_in g (trailer_sector (build g) Area.scratch) lasting
        (local scratch.old run) }
{
    let erased = operations::erase(g, scratch, Sector(1), run);
    let ok = writes::write_ok(g, scratch, Sector(1), lasting, erased);
    writes::write_magic(g, scratch, Sector(1), ok)
}

// Line 5.
#[tactic(auto, unfolding(writes::specs::InArea::line_five_in, flash::specs::Base::base))]
pub fn line_five(g: Geometry, slot0: &mut [u8], lasting: bool, run: Run) -> Run
    requires { Small g }
    ensures { local slot0.new result ≡ line_five_in g (trailer_sector (build g) Area.slot0) lasting
        (local slot0.old run) }
{
    let last = g.last_sector();
    let ok = writes::write_ok(g, slot0, last, lasting, run);
    let marks = three_marks(g, slot0, ok);
    writes::write_magic(g, slot0, last, marks)
}

// Marking: image ok, if it is for good, and magic.
#[tactic(auto, unfolding(flash::specs::Base::base))]
pub fn ok_and_magic(g: Geometry, slot1: &mut [u8], lasting: bool, run: Run) -> Run
    requires { Small g }
    ensures { local slot1.new result ≡ magic_in g (trailer_sector (build g) Area.slot1)
        (ok_in g (trailer_sector (build g) Area.slot1) lasting (local slot1.old run)) }
{
    let last = g.last_sector();
    let ok = writes::write_ok(g, slot1, last, lasting, run);
    writes::write_magic(g, slot1, last, ok)
}

// The sectors of an area that stand before another.
#[tactic(auto, unfolding(writes::specs::InArea::erases_in))]
pub fn erase_sectors(g: Geometry, area: &mut [u8], end: Sector, run: Run) -> Run
    requires small { Small g }
    requires end_bound { end.0 ≤ 128 }
    ensures { local area.new result ≡ erases_in g 0 end.0 (local area.old run) }
{
    let mut r = run;
    for i in 0..end.0 {
        r = operations::erase(g, area, Sector(i), r);
    }
    r
}
