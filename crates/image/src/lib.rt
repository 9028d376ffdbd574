// The image check: header, trailing records, digest. It writes nothing.
#![tactic(auto)]

ghost use Rattle.std.specs.Prelude.{◌≡◌, ◌≤◌, length};
ghost use Rattle.causes.specs.Check.{cause_of, digest_at, check};

pub mod header;
mod layout;

use causes::{Cause, Signed};

// Cause 5: the bytes covered, against the 32 bytes of the digest record.
fn digest_at(image: &[u8], signed: Signed) -> Result<(), Cause>
    requires { (32 ≤ signed.covered) × (signed.covered ≤ length image.now) }
    ensures { result ≡ digest_at (Ok signed) image.now }
{
    let mut digest = [0u8; 32];
    // (a range with a beginning, which the wrong program `first_byte_not_digested` moves)
    sha256::digest(&image[0..signed.covered], &mut digest);
    if compare::stands(image, signed.digest, &digest) {
        Ok(())
    } else {
        Err(Cause::DigestDiffers)
    }
}

// The image check.
pub fn check(image: &[u8]) -> Result<(), Cause>
    ensures { result ≡ check image.now }
{
    digest_at(image, crate::layout::structure(image)?)
}

// The image check by its number: 0 for accepted.
// stays: the C interface answers a number (`scale_check_image`).
#[tactic(auto, unfolding(causes::specs::Check::cause_of))]
pub fn cause_number(image: &[u8]) -> u32
    ensures { result ≡ cause_of (check image.now) }
{
    match check(image) {
        Ok(()) => 0,
        Err(cause) => u32::from(cause),
    }
}
