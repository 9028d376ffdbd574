// Marks of one unit: any, image ok, copy done.
ghost use Rattle.std.specs.Prelude.{◌≡◌, ◌≤◌};
ghost use Rattle.flash.specs.Base.{build};
ghost use Rattle.trailer.specs.Trailer.{mark_of, ok_at, copy_done_at};

use crate::Trailer;
use crate::part::Part;
use flash::Offset;
use trailer::Mark;

impl<'a> Trailer<'a> {
    // What the unit at a place says as a mark.
    #[tactic(auto, unfolding(flash::specs::Base::base))]
    pub fn mark_in(self, place: Offset) -> Mark
        requires { place.0 ≤ self.g.sector }
        ensures { result ≡ mark_of (build self.entry.g) self.entry.bytes.now place }
    {
        let at = place.0;
        let unit = self.g.unit;
        if compare::all_blank(self.bytes, at, unit) {
            Mark::Unset
        } else if compare::all_blank(self.bytes, at + 1, unit - 1) {
            Mark::Value(self.bytes.get(at).copied().unwrap_or(0))
        } else {
            Mark::Bad
        }
    }

    // stays: image ok and copy done by two names: who asks promises by `ok_at` or `copy_done_at`, and both are one line over `mark_in`.
    #[tactic(auto, unfolding(flash::specs::Base::base))]
    pub fn image_ok(self) -> Mark
        ensures { result ≡ mark_of (build self.entry.g) self.entry.bytes.now (ok_at (build self.entry.g)) }
    {
        self.mark_in(Part::ImageOk.place(self.g))
    }

    #[tactic(auto, unfolding(flash::specs::Base::base))]
    pub fn copy_done(self) -> Mark
        ensures { result ≡ mark_of (build self.entry.g) self.entry.bytes.now (copy_done_at (build self.entry.g)) }
    {
        self.mark_in(Part::CopyDone.place(self.g))
    }
}
