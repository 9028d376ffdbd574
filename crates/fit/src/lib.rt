// Whether a geometry and the lengths of the areas are document 01's: refusal 1.
#![tactic(auto)]

ghost use Rattle.std.specs.Prelude.{◌≡◌, ◌≤◌, ◌<◌, is_some, IfSome};
ghost use Rattle.spans.specs.Choice.{every};
ghost use Rattle.flash.specs.Small.{Small};
ghost use Rattle.flash.specs.Build.{fits};
ghost use Rattle.flash.specs.Base.{build};
ghost use Rattle.fit.specs.Taken.{unit_asked, sizes_asked, lengths_asked};

use flash::Geometry;

// A geometry whose products fit a word, as all do that document 01 takes.
#[derive(Clone, Copy)]
pub struct Fit {
    pub g: Geometry,
    ghost small: { Small g },
}

#[tactic(auto, unfolding(crate::specs::Taken::unit_asked))]
fn unit_taken(w: usize) -> bool
    ensures { result ≡ unit_asked w }
{
    matches!(w, 1 | 2 | 4 | 8)
}

// The bounds, for a unit that is taken.
#[tactic(auto, unfolding(crate::specs::Taken::sizes_asked, spans::specs::Choice::every))]
fn sizes_taken(g: Geometry) -> bool
    requires { (0 < g.unit) × (g.unit ≤ 8) }
    ensures { result ≡ every (sizes_asked g) }
{
    g.sector % g.unit == 0
        && 384 * g.unit + 32 <= g.sector
        && g.sector <= 65536
        && 2 <= g.sectors
        && g.sectors <= 128
}

#[tactic(auto, unfolding(crate::specs::Taken::lengths_asked, spans::specs::Choice::every))]
fn lengths_taken(g: Geometry, l0: usize, l1: usize, l2: usize) -> bool
    requires { Small g }
    ensures { result ≡ every (lengths_asked g l0 l1 l2) }
{
    let slot = g.slot_bytes();
    l0 == slot.0 && l1 == slot.0 && l2 == g.scratch_bytes().0
}

// Nothing is divided or multiplied before its bounds are known.
#[tactic(auto, using(crate::specs::Taken::unit_bounds, crate::specs::Taken::small, crate::specs::Taken::in_parts))]
fn is_taken(g: Geometry, l0: usize, l1: usize, l2: usize) -> bool
    ensures { result ≡ fits (build g) l0 l1 l2 }
{
    unit_taken(g.unit) && sizes_taken(g) && lengths_taken(g, l0, l1, l2)
}

// The geometry, where it and the areas' lengths are those of document 01.
#[tactic(auto, using(crate::specs::Taken::small_fits))]
pub fn taken(g: Geometry, l0: usize, l1: usize, l2: usize) -> Option<Fit>
    ensures fits { is_some result ≡ fits (build g) l0 l1 l2 }
    ensures same { IfSome result (λ t. t.g ≡ g) }
{
    if is_taken(g, l0, l1, l2) {
        Some(Fit { g })
    } else {
        None
    }
}
