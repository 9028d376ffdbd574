// The end of the padded message (5.1.1): what is left of the message, the bit 1, zero bits and the length.
ghost use Rattle.std.specs.Prelude.{◌≡◌, ◌*◌, ◌/◌, length, drop, replicate};
ghost use Rattle.spans.specs.Words.{bytes_of};
ghost use Rattle.fips.specs.Fips.{pad};

// The length in bits of a message of size bytes.
fn bit_length(size: usize) -> [u8; 8]
    ensures { result ≡ bytes_of 8 (8 * size) }
{
    // stays: `as`: std has no `From<usize>` for u64, and TryFrom's Err, which never comes, would want an answer.
    (size as u64).wrapping_mul(8).to_be_bytes()
}

// The last blocks of the padded message, those behind the message's own whole blocks. They are made in tail.
// Not inlined: in digest, whose own array tail is, the copy would become a call of memcpy, and the archive needs memset alone.
#[inline(never)]
pub fn finish<'a>(message: &[u8], tail: &'a mut [u8; 128]) -> &'a [u8]
    requires { tail.old ≡ replicate 128 0 }
    ensures { result.now ≡ drop (64 * (length message.now / 64)) (pad message.now) }
{
    let size = message.len();
    let rest = size % 64;
    let end = (rest + 72) / 64 * 64;
    store::copy(message, size - rest, tail, 0, rest);
    tail[rest] = 128;
    tail[end - 8..end].copy_from_slice(&bit_length(size));
    &tail[..end]
}
