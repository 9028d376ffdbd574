// One turn of the working variables: 6.2.2, step 3.
mod functions;

ghost use Rattle.std.specs.Prelude.{◌≡◌};
ghost use Rattle.fips.specs.Fips.{T₁, T₂, round};
ghost use Rattle.compress.specs.Variables.{eight};

// The working variables a to h, or a hash value.
#[derive(Clone, Copy)]
pub struct Work {
    pub a: u32,
    pub b: u32,
    pub c: u32,
    pub d: u32,
    pub e: u32,
    pub f: u32,
    pub g: u32,
    pub h: u32,
}

fn first(v: Work, k: u32, w: u32) -> u32
    ensures { result ≡ T₁ (eight v) k w }
{
    v.h.wrapping_add(functions::big_sigma::<6, 11, 25>(v.e))
        .wrapping_add(functions::ch(v.e, v.f, v.g))
        .wrapping_add(k)
        .wrapping_add(w)
}

fn second(v: Work) -> u32
    ensures { result ≡ T₂ (eight v) }
{
    functions::big_sigma::<2, 13, 22>(v.a).wrapping_add(functions::maj(v.a, v.b, v.c))
}

// The turn with K_t and W_t.
#[tactic(auto, unfolding(fips::specs::Fips::round, crate::specs::Variables::eight))]
pub fn one(v: Work, k: u32, w: u32) -> Work
    ensures { eight result ≡ round (eight v) k w }
{
    let t1 = first(v, k, w);
    let t2 = second(v);
    Work {
        a: t1.wrapping_add(t2),
        b: v.a,
        c: v.b,
        d: v.c,
        e: v.d.wrapping_add(t1),
        f: v.e,
        g: v.f,
        h: v.g,
    }
}
