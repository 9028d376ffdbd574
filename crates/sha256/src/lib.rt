// SHA-256 of FIPS 180-4.
#![tactic(auto)]

mod blocks;
mod padding;

ghost use Rattle.std.specs.Prelude.{◌≡◌};
ghost use Rattle.fips.specs.Fips.{H₀, sha256};
ghost use Rattle.fips.specs.Fips as Fips;
ghost use Rattle.compress.specs.Variables.{eight};

use compress::turn::Work;

fn start() -> Work
    ensures { eight result ≡ H₀ }
{
    Work {
        a: 0x6a09e667,
        b: 0xbb67ae85,
        c: 0x3c6ef372,
        d: 0xa54ff53a,
        e: 0x510e527f,
        f: 0x9b05688c,
        g: 0x1f83d9ab,
        h: 0x5be0cd19,
    }
}

fn result_of(h: Work) -> [u8; 32]
    ensures { result ≡ Fips.result (eight h) }
{
    let words = [h.a, h.b, h.c, h.d, h.e, h.f, h.g, h.h];
    let mut out = [0u8; 32];
    for (i, word) in words.iter().enumerate() {
        fips::put_word(&mut out, 4 * i, *word);
    }
    out
}

// The digest of a message of any length.
pub fn digest(message: &[u8], out: &mut [u8; 32])
    ensures { out.new ≡ sha256 message.now }
{
    let mut tail = [0u8; 128];
    let last = padding::finish(message, &mut tail);
    let body = blocks::absorb(start(), message);
    *out = result_of(blocks::absorb(body, last));
}
