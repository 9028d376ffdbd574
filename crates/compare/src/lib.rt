// Whether bytes of an area are blank, or those that are wanted. What is not there is neither.
#![tactic(auto)]

ghost use Rattle.std.specs.Prelude.{◌≡◌, ◌-◌, ◌<◌, length, MatchOption, bit_and, bit_or};
ghost use Rattle.std.specs.Int.Bits.{bit_xor};
ghost use Rattle.std.specs.List.{fold, zip};
ghost use Rattle.spans.specs.Bytes.{blank, part, same};

// The size bytes from at on, where all of them are there.
fn window(area: &[u8], at: usize, size: usize) -> Option<&[u8]>
    ensures { MatchOption result (length area.now - at < size) (λ w. (w.now ≡ part area.now at size) × (length w.now ≡ size)) }
{
    area.get(at..).unwrap_or(&[]).get(..size)
}

// The bits that are 1 in each byte.
// stays: a fold, no `all(..)`: the compiler makes vector code of a fold, and none of a search for the first byte that has a 0.
fn common_bits(bytes: &[u8]) -> u8
    ensures { result ≡ fold bit_and 255 bytes.now }
{
    bytes.iter().fold(255, |common, byte| common & *byte)
}

// Whether the size bytes from at on are all there and all 0xff.
// stays: a place and a size beside the area: `part` in the promises of `all_blank` and `stands` takes any numbers.
pub fn all_blank(area: &[u8], at: usize, size: usize) -> bool
    ensures { result ≡ same (part area.now at size) (blank size) }
{
    window(area, at, size).is_some_and(|bytes| common_bits(bytes) == 255)
}

// The bits in which a byte differs from the one that is wanted.
// stays: a fold, no `==` of slices: that ends at the first bytes that differ, and digests are compared by no early exit
// (docs/ARCHITECTURE.md, "Nothing about secrecy").
fn differing_bits(bytes: &[u8], want: &[u8]) -> u8
    ensures { result ≡ fold (λ d p. bit_or d (bit_xor p.0 p.1)) 0 (zip bytes.now want.now) }
{
    bytes
        .iter()
        .zip(want)
        .fold(0, |differ, (byte, wanted)| differ | (*byte ^ *wanted))
}

// Whether the bytes of want stand in the area from at on.
pub fn stands(area: &[u8], at: usize, want: &[u8]) -> bool
    ensures { result ≡ same (part area.now at (length want.now)) want.now }
{
    window(area, at, want.len()).is_some_and(|bytes| differing_bits(bytes, want) == 0)
}
