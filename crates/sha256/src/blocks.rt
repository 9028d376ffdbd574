// Blocks of 64 bytes: 5.2.1, and 6.2.2 block by block.
ghost use Rattle.std.specs.Prelude.{◌≡◌, ◌/◌, length};
ghost use Rattle.spans.specs.Words.{words};
ghost use Rattle.fips.specs.Fips.{compress, hash};
ghost use Rattle.compress.specs.Variables.{eight};

use compress::turn::Work;

// The hash value after one more block. The schedule is made in w, whose words may be any.
fn take_block(h: Work, block: &[u8], w: &mut [u32; 64]) -> Work
    requires { length block.now ≡ 64 }
    ensures { eight result ≡ compress (eight h) (words 4 16 block.now) }
{
    compress::schedule::of_block(block, 0, w);
    compress::next_hash(h, w)
}

// The hash value after the whole blocks that the bytes begin with.
pub fn absorb(h: Work, bytes: &[u8]) -> Work
    ensures { eight result ≡ hash (eight h) bytes.now (length bytes.now / 64) }
{
    let mut w = [0u32; 64];
    let mut s = h;
    for block in bytes.chunks_exact(64) {
        s = take_block(s, block, &mut w);
    }
    s
}
