// The run of progress marks in slot 0's trailer sector, in reading order.
ghost use Rattle.std.specs.Prelude.{◌≡◌, ◌*◌, ◌<◌};
ghost use Rattle.flash.specs.Base.{build};
ghost use Rattle.flash.specs.Small.{Small};
ghost use Rattle.trailer.specs.Trailer.{mark_at, mark_of, written, legal};
ghost use Rattle.marks.specs.RunLaws.{fits_run};

use crate::Trailer;
use flash::{Geometry, Offset, Unit, Units};
use trailer::Mark;

// Where mark number k stands in the trailer sector.
// stays: the bound of a mark number, here, in writes and in moves: document 01 wants plain numbers for marks.
pub fn mark_place(g: Geometry, k: usize) -> Offset
    requires small { Small g }
    requires k_bound { k < 3 * g.sectors }
    ensures { result ≡ mark_at (build g) k }
{
    let all = g.bytes_in(Units(3 * g.sectors));
    let place = g.place_of(Unit(k));
    Offset(g.sector - 32 - all.0) + place
}

impl<'a> Trailer<'a> {
    // Progress mark number k, in reading order.
    fn progress(self, k: usize) -> Mark
        requires { k < 3 * self.g.sectors }
        ensures { result ≡ mark_of (build self.entry.g) self.entry.bytes.now (mark_at (build self.entry.g) k) }
    {
        self.mark_in(mark_place(self.g, k))
    }

    // How many marks stand before the first that is Unset.
    pub fn written_marks(self) -> usize
        ensures { result ≡ written (build self.entry.g) self.entry.bytes.now 0 (3 * self.entry.g.sectors) }
    {
        let all = 3 * self.g.sectors;
        for k in 0..all {
            if self.progress(k) == Mark::Unset {
                return k;
            }
        }
        all
    }

    // Whether mark number k is as a run of c marks has it: 01, 02 and 03 in turn, then Unset.
    #[tactic(auto, unfolding(flash::specs::Base::base, trailer::specs::Trailer::is_unset, trailer::specs::Trailer::has_value))]
    fn mark_fits(self, c: usize, k: usize) -> bool
        requires { k < 3 * self.g.sectors }
        ensures { result ≡ fits_run (build self.entry.g) self.entry.bytes.now c k }
    {
        // stays: `as`: it is 1, 2 or 3, and the Err of u8::try_from, which never comes, would want an answer.
        if k < c {
            self.progress(k) == Mark::Value(1 + (k % 3) as u8)
        } else {
            self.progress(k) == Mark::Unset
        }
    }

    // Whether the marks are those of a run of c marks.
    pub fn legal_run(self, c: usize) -> bool
        ensures { result ≡ legal (build self.entry.g) self.entry.bytes.now c 0 (3 * self.entry.g.sectors) }
    {
        for k in 0..3 * self.g.sectors {
            if !self.mark_fits(c, k) {
                return false;
            }
        }
        true
    }
}
