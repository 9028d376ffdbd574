// The functions of 4.1.2 that a turn takes.
ghost use Rattle.std.specs.Prelude.{◌≡◌, ◌<◌};
ghost use Rattle.fips.specs.Fips.{◌⊕◌, ROTR, Ch, Maj};

// Without the complement: two operations fewer in each of the 64 turns.
pub fn ch(x: u32, y: u32, z: u32) -> u32
    ensures { result ≡ Ch x y z }
{
    z ^ (x & (y ^ z))
}

#[tactic(auto, unfolding(fips::specs::Fips::Maj))]
pub fn maj(x: u32, y: u32, z: u32) -> u32
    ensures { result ≡ Maj x y z }
{
    (x & y) ^ (x & z) ^ (y & z)
}

// Σ₀ and Σ₁: x rotated by each of the three numbers.
pub fn big_sigma<const A: u32, const B: u32, const C: u32>(x: u32) -> u32
    requires a { (0 < A) × (A < 32) }
    requires b { (0 < B) × (B < 32) }
    requires c { (0 < C) × (C < 32) }
    ensures { result ≡ ROTR A x ⊕ ROTR B x ⊕ ROTR C x }
{
    x.rotate_right(A) ^ x.rotate_right(B) ^ x.rotate_right(C)
}
