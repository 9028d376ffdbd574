// The parts of a trailer sector that stand at one place whatever the geometry, counted from the sector's end.
ghost use Rattle.std.specs.Prelude.{◌≡◌};
ghost use Rattle.flash.specs.Base.{build};
ghost use Rattle.flash.specs.Small.{Small};
ghost use Rattle.marks.specs.Parts.{part_at};

use flash::{Geometry, Offset};

#[derive(Clone, Copy, PartialEq, Eq)]
pub enum Part {
    CopyDone,
    ImageOk,
    Magic,
}

impl Part {
    #[tactic(auto, unfolding(flash::specs::Base::base))]
    pub fn place(self, g: Geometry) -> Offset
        requires { Small g }
        ensures { result ≡ part_at self (build g) }
    {
        match self {
            Part::CopyDone => Offset(g.sector - 32),
            Part::ImageOk => Offset(g.sector - 24),
            Part::Magic => Offset(g.sector - 16),
        }
    }
}
