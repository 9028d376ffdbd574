// Fields of an image, little endian: numbers of two and of four bytes.
#![tactic(auto)]

// stays: a place beside the bytes: `field s.now at 2` in the promises that docs/PROMISES.md names takes any place.

ghost use Rattle.std.specs.Prelude.{◌≡◌, ◌+◌, ◌<◌, ◌≤◌, length};
ghost use Rattle.fields.specs.Fields.{field};

// stays: two functions: `from_le_bytes` is of no trait, so that one over the width would add up bytes by hand.
#[tactic(auto, using(crate::specs::FieldLaws::field_two))]
pub fn two(s: &[u8], at: usize) -> usize
    requires { at + 2 ≤ length s.now }
    ensures { (result ≡ field s.now at 2) × (result < 65536) }
{
    usize::from(u16::from_le_bytes([s[at], s[at + 1]]))
}

#[tactic(auto, using(crate::specs::FieldLaws::field_four_bytes))]
pub fn four(s: &[u8], at: usize) -> usize
    requires { at + 4 ≤ length s.now }
    ensures { (result ≡ field s.now at 4) × (result < 4294967296) }
{
    // stays: `as`: std has no `From<u32>` for usize, and TryFrom's Err, which never comes, would want an answer.
    u32::from_le_bytes([s[at], s[at + 1], s[at + 2], s[at + 3]]) as usize
}
