// The layout: causes 1 to 4, before the digest.
ghost use Rattle.std.specs.Prelude.{◌≡◌, ◌+◌, ◌^◌, ◌<◌, length};
ghost use Rattle.records.specs.Records.{records};
ghost use Rattle.causes.specs.Check.{layout_of, structure};

use causes::{Cause, Signed};

// Causes 3 and 4, of the records area, which stands behind the bytes covered.
fn layout_of(area: &[u8], covered: usize) -> Result<Signed, Cause>
    requires { covered + length area.now < 2 ^ 64 }
    ensures { result ≡ layout_of covered (records area.now) }
{
    let digest = records::digest_place(area, covered)?;
    Ok(Signed { covered, digest })
}

// Causes 1 to 4.
pub fn structure(image: &[u8]) -> Result<Signed, Cause>
    ensures { result ≡ structure image.now }
{
    let sizes = crate::header::head(image)?;
    let covered = sizes.header + sizes.body;
    let end = covered + sizes.records;
    layout_of(&image[covered..end], covered)
}
