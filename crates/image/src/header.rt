// The header: causes 1 and 2.
ghost use Rattle.std.specs.Prelude.{◌≡◌, ◌≤◌, length};
ghost use Rattle.causes.specs.Check.{sizes, head};

use causes::{Cause, Sizes};

// "magic 96f3b83c at 0"
const MAGIC: usize = 0x96f3b83c;

fn sizes(image: &[u8]) -> Result<Sizes, Cause>
    requires { 32 ≤ length image.now }
    ensures { result ≡ sizes image.now }
{
    let records = fields::two(image, 4);
    let header = fields::two(image, 8);
    let body = fields::four(image, 12);
    if header < 32 || image.len() < header + body + records {
        return Err(Cause::HeaderSizes);
    }
    Ok(Sizes {
        header,
        body,
        records,
    })
}

// Causes 1 and 2 alone.
pub fn head(image: &[u8]) -> Result<Sizes, Cause>
    ensures { result ≡ head image.now }
{
    if image.len() < 32 {
        return Err(Cause::HeaderSizes);
    }
    if fields::four(image, 0) != MAGIC {
        return Err(Cause::HeaderMagic);
    }
    sizes(image)
}
