// FIPS 180-4: specs/Fips.antt is the standard. Here its words are read and written as bytes, the highest byte first.
#![tactic(auto)]

ghost use Rattle.std.specs.Prelude.{◌≡◌, ◌+◌, ◌%◌, ◌≤◌, ◌<◌, length};
ghost use Rattle.spans.specs.Bytes.{part, put};
ghost use Rattle.spans.specs.Words.{number, bytes_of};

// stays: the place beside the bytes, which the promise in docs/PROMISES.md names: `number (part bytes.now at 4)`.
pub fn word(bytes: &[u8], at: usize) -> u32
    requires { at + 4 ≤ length bytes.now }
    ensures { result ≡ number (part bytes.now at 4) }
{
    u32::from_be_bytes([bytes[at], bytes[at + 1], bytes[at + 2], bytes[at + 3]])
}

// stays: the place beside the bytes, which the promise in docs/PROMISES.md names: `put area.old at (bytes_of 4 x)`.
pub fn put_word(area: &mut [u8], at: usize, x: u32)
    requires { at + 4 ≤ length area.old }
    ensures { area.new ≡ put area.old at (bytes_of 4 x) }
{
    area[at..at + 4].copy_from_slice(&x.to_be_bytes());
}
