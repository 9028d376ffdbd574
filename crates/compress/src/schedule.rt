// The message schedule: 6.2.2, step 1.
ghost use Rattle.std.specs.Prelude.{◌≡◌, List, ℕ, ◌+◌, ◌<◌, ◌≤◌, length, take, drop};
ghost use Rattle.spans.specs.Words.{words};
ghost use Rattle.fips.specs.Fips.{◌⊕◌, ROTR, SHR, next, schedule};
ghost use Rattle.compress.specs.Grown.{Filling};

// σ₀ and σ₁: x rotated by A and by B, and shifted by C.
fn small_sigma<const A: u32, const B: u32, const C: u32>(x: u32) -> u32
    requires a { (0 < A) × (A < 32) }
    requires b { (0 < B) × (B < 32) }
    requires c { C < 32 }
    ensures { result ≡ ROTR A x ⊕ ROTR B x ⊕ SHR C x }
{
    x.rotate_right(A) ^ x.rotate_right(B) ^ (x >> C)
}

fn next_word(w: &[u32; 64], t: usize) -> u32
    requires { (16 ≤ t) × (t < 64) }
    ensures { result ≡ next w.now t }
{
    small_sigma::<17, 19, 10>(w[t - 2])
        .wrapping_add(w[t - 7])
        .wrapping_add(small_sigma::<7, 18, 3>(w[t - 15]))
        .wrapping_add(w[t - 16])
}

// The words for t to t + 3. The compiler takes this loop apart: one loop of 48 words takes longer, and so do eight words here.
fn four_words(w: &mut [u32; 64], t: usize)
    requires { (16 ≤ t) × (t + 4 ≤ 64) }
    ensures { (first : List ℕ) → Filling first w.old t → Filling first w.new (t + 4) }
{
    for u in t..t + 4 {
        w[u] = next_word(w, u);
    }
}

// The words from the seventeenth on, from the sixteen that stand first.
fn extend(w: &mut [u32; 64])
    ensures { w.new ≡ schedule (take 16 w.old) 48 }
{
    for t in (16..64).step_by(4) {
        four_words(w, t);
    }
}

// The sixteen words of a block.
fn load(block: &[u8], w: &mut [u32; 64])
    requires { length block.now ≡ 64 }
    ensures { take 16 w.new ≡ words 4 16 block.now }
{
    for (i, word) in w[..16].iter_mut().enumerate() {
        *word = fips::word(block, 4 * i);
    }
}

// The schedule of the block at at, made in w, whose words may be any.
// stays: the place beside the bytes, which the promise in docs/PROMISES.md names: `words 4 16 (drop at bytes.now)`.
pub fn of_block(bytes: &[u8], at: usize, w: &mut [u32; 64])
    requires { (at + 64 ≤ length bytes.now) × (length w.old ≡ 64) }
    ensures { (w.new ≡ schedule (words 4 16 (drop at bytes.now)) 48) × (length w.new ≡ 64) }
{
    load(&bytes[at..at + 64], w);
    extend(w);
}
