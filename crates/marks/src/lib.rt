// What a trailer sector says, read from its bytes.
#![tactic(auto)]

ghost use Rattle.std.specs.Prelude.{◌≡◌, ◌≤◌, drop};
ghost use Rattle.flash.specs.Geometry.{start_of};
ghost use Rattle.flash.specs.Build.{slot0, scratch, trailer_sector};
ghost use Rattle.flash.specs.Base.{build};
ghost use Rattle.flash.specs.Small.{Small};

use flash::{Geometry, Sector};

pub mod magic;
pub mod mark;
pub mod part;
pub mod progress;

// The bytes of an area's trailer sector, with the geometry that says where things stand in it.
#[derive(Clone, Copy)]
pub struct Trailer<'a> {
    pub g: Geometry,
    pub bytes: &'a [u8],
    ghost small: { Small g },
}

// The bytes of an area from a sector on: for its last sector, the bytes of that.
fn from_sector(g: Geometry, area: &[u8], i: Sector) -> &[u8]
    requires small { Small g }
    requires i_bound { i.0 ≤ 128 }
    ensures { result.now ≡ drop (start_of g i).0 area.now }
{
    let at = g.start_of(i).0;
    &area[at.min(area.len())..]
}

impl<'a> Trailer<'a> {
    // That of a slot, and that of scratch.
    // stays: two: each promises the place by the definition of its own area (`trailer_sector`), and the two share `from_sector`.
    #[tactic(auto, unfolding(flash::specs::Base::base))]
    pub fn of_slot(g: Geometry, slot: &'a [u8]) -> Trailer<'a>
        requires { Small g }
        ensures geometry { result.g ≡ g }
        ensures bytes { result.bytes.now ≡ drop (start_of g (trailer_sector (build g) slot0)).0 slot.now }
    {
        Trailer {
            g,
            bytes: from_sector(g, slot, g.last_sector()),
        }
    }

    #[tactic(auto, unfolding(flash::specs::Base::base))]
    pub fn of_scratch(g: Geometry, area: &'a [u8]) -> Trailer<'a>
        requires { Small g }
        ensures geometry { result.g ≡ g }
        ensures bytes { result.bytes.now ≡ drop (start_of g (trailer_sector (build g) scratch)).0 area.now }
    {
        Trailer {
            g,
            bytes: from_sector(g, area, Sector(1)),
        }
    }
}
