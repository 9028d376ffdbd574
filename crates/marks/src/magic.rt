// The magic words.
ghost use Rattle.std.specs.Prelude.{◌≡◌};
ghost use Rattle.flash.specs.Base.{build};
ghost use Rattle.flash.specs.Build.{Build};
ghost use Rattle.trailer.specs.Trailer.{magic_at, magic_bytes, magic_of};

use crate::Trailer;
use crate::part::Part;
use flash::Offset;
use trailer::Magic;

#[tactic(auto, unfolding(trailer::specs::Trailer::magic_bytes))]
pub fn magic_bytes() -> [u8; 16]
    ensures { result ≡ magic_bytes }
{
    [
        0x77, 0xc2, 0x95, 0xf3, 0x60, 0xd2, 0xef, 0x7f, 0x35, 0x52, 0x50, 0x0f, 0x2c, 0xb6, 0x79,
        0x80,
    ]
}

// What stands at the place of a magic. It is called with the bytes and the place alone, as each call with a Trailer would have its copy on the stack.
#[inline(never)]
fn words_at(bytes: &[u8], place: Offset) -> Magic
    ensures { (g : Build) → place ≡ magic_at g → result ≡ magic_of g bytes.now }
{
    if compare::stands(bytes, place.0, &magic_bytes()) {
        Magic::Good
    } else if compare::all_blank(bytes, place.0, 16) {
        Magic::Unset
    } else {
        Magic::Bad
    }
}

impl<'a> Trailer<'a> {
    #[inline]
    pub fn magic(self) -> Magic
        ensures { result ≡ magic_of (build self.entry.g) self.entry.bytes.now }
    {
        words_at(self.bytes, Part::Magic.place(self.g))
    }
}
