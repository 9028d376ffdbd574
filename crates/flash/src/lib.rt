#![tactic(auto)]

ghost use Rattle.std.specs.Prelude.{◌≡◌, ◌+◌, ◌≤◌, ◌<◌};
ghost use Rattle.flash.specs.Geometry.{start_of, place_of, unit_at, units_per_sector, first_unit, further, after, beyond, bytes_in, units_in};
ghost use Rattle.flash.specs.Geometry.{last_sector, slot_bytes, data_bytes};
ghost use Rattle.flash.specs.Build.{scratch_bytes};
ghost use Rattle.flash.specs.Base.{build};
ghost use Rattle.flash.specs.Small.{Small};

use std::ops::Add;

// The write unit's bytes, the sector's bytes, the sectors of a slot.
#[derive(Clone, Copy)]
pub struct Geometry {
    pub unit: usize,
    pub sector: usize,
    pub sectors: usize,
}

// A sector number, a write-unit number and a byte offset count three things.
#[derive(Clone, Copy)]
pub struct Sector(pub usize);

#[derive(Clone, Copy)]
pub struct Unit(pub usize);

#[derive(Clone, Copy)]
pub struct Offset(pub usize);

// How many units, and how many bytes.
#[derive(Clone, Copy)]
pub struct Units(pub usize);

#[derive(Clone, Copy)]
pub struct Bytes(pub usize);

// How carrying out a list of operations stands.
#[derive(Clone, Copy, PartialEq, Eq)]
pub enum End {
    // no operation was left out so far
    Going,
    // the allowance is used up, and another operation is due
    Stopped,
    // the unit to be written next is not erased
    Unerased,
}

// What is left of the allowance, and how it stands.
// stays: no Result, since a run that ended too says what is left; `local`, `erase_in` and `steps` (specs/Operations.antt) are over this record.
#[derive(Clone, Copy)]
pub struct Run {
    pub left: u64,
    pub end: End,
}

// The named functions that turn one kind of number into another.
// stays: `requires Small self`, here and in public functions of the crates above this one: docs/PROMISES.md names them, and a narrower type
// asks more. Private ones beside them ask it too, since each public one would first have to wrap its geometry.
// stays: the bounds of a number, and a function for each kind of it: document 01 wants tuple structs and named functions, and a tuple struct
// has no invariant.
impl Geometry {
    pub fn start_of(self, i: Sector) -> Offset
        requires small { Small self }
        requires i_bound { i.0 ≤ 128 }
        ensures { result ≡ start_of self i }
    {
        Offset(i.0 * self.sector)
    }

    pub fn place_of(self, u: Unit) -> Offset
        requires small { Small self }
        requires u_bound { u.0 ≤ 8388608 }
        ensures { result ≡ place_of self u }
    {
        Offset(u.0 * self.unit)
    }

    pub fn unit_at(self, o: Offset) -> Unit
        requires { Small self }
        ensures { result ≡ unit_at self o }
    {
        Unit(o.0 / self.unit)
    }

    pub fn units_per_sector(self) -> Units
        requires { Small self }
        ensures { result ≡ units_per_sector self }
    {
        Units(self.sector / self.unit)
    }

    pub fn first_unit(self, i: Sector) -> Unit
        requires small { Small self }
        requires i_bound { i.0 ≤ 128 }
        ensures { result ≡ first_unit self i }
    {
        let per = self.units_per_sector();
        Unit(i.0 * per.0)
    }

    // How many bytes some units are, and how many units some bytes.
    pub fn bytes_in(self, n: Units) -> Bytes
        requires small { Small self }
        requires n_bound { n.0 ≤ 8388608 }
        ensures { result ≡ bytes_in self n }
    {
        Bytes(n.0 * self.unit)
    }

    pub fn units_in(self, b: Bytes) -> Units
        requires { Small self }
        ensures { result ≡ units_in self b }
    {
        Units(b.0 / self.unit)
    }

    // The last sector of a slot, which is its trailer sector.
    pub fn last_sector(self) -> Sector
        requires { Small self }
        ensures { result ≡ last_sector self }
    {
        Sector(self.sectors - 1)
    }

    // The bytes of a slot, of its data sectors, and of scratch.
    pub fn slot_bytes(self) -> Bytes
        requires { Small self }
        ensures { result ≡ slot_bytes self }
    {
        Bytes(self.sectors * self.sector)
    }

    pub fn data_bytes(self) -> Bytes
        requires { Small self }
        ensures { result ≡ data_bytes self }
    {
        Bytes((self.sectors - 1) * self.sector)
    }

    #[tactic(auto, unfolding(crate::specs::Base::base))]
    pub fn scratch_bytes(self) -> Bytes
        requires { Small self }
        ensures { result ≡ scratch_bytes (build self) }
    {
        Bytes(2 * self.sector)
    }
}

// The unit that comes some units after another.
impl Add<Units> for Unit {
    type Output = Unit;

    ghost can_add = { λ u n. u.0 + n.0 < 18446744073709551616 };

    ghost add_gives = { λ u n r. r ≡ further u n };

    fn add(self, n: Units) -> Unit {
        Unit(self.0 + n.0)
    }
}

// An offset that is counted from another.
impl Add<Offset> for Offset {
    type Output = Offset;

    ghost can_add = { λ o p. o.0 + p.0 < 18446744073709551616 };

    ghost add_gives = { λ o p r. r ≡ after o p };

    fn add(self, p: Offset) -> Offset {
        Offset(self.0 + p.0)
    }
}

// The offset some bytes behind one.
impl Add<Bytes> for Offset {
    type Output = Offset;

    ghost can_add = { λ o b. o.0 + b.0 < 18446744073709551616 };

    ghost add_gives = { λ o b r. r ≡ beyond o b };

    fn add(self, b: Bytes) -> Offset {
        Offset(self.0 + b.0)
    }
}
