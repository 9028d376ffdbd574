// Why the image check rejects, and what passes from step to step; specs/Image.antt says what an image is, specs/Check.antt gives each answer.
#![tactic(auto)]

ghost use Rattle.std.specs.Prelude.{◌≡◌};
ghost use Rattle.causes.specs.Check.{number_of, cause_of_fault};

use records::Fault;

// Why an image is rejected; specs/Check.antt gives the numbers.
#[derive(Clone, Copy, PartialEq, Eq)]
pub enum Cause {
    HeaderMagic,
    HeaderSizes,
    RecordsArea,
    DigestRecord,
    DigestDiffers,
}

// The sizes that a good header says.
#[derive(Clone, Copy)]
pub struct Sizes {
    pub header: usize,
    pub body: usize,
    pub records: usize,
}

// What is left to the digest, after causes 1 to 4: how many bytes it covers, and where it stands.
#[derive(Clone, Copy)]
pub struct Signed {
    pub covered: usize,
    pub digest: usize,
}

// The number that document 01 gives a cause.
impl From<Cause> for u32 {
    ghost from_gives = { λ cause number. number ≡ number_of cause };

    #[tactic(auto, unfolding(crate::specs::Check::number_of))]
    fn from(cause: Cause) -> u32 {
        match cause {
            Cause::HeaderMagic => 1,
            Cause::HeaderSizes => 2,
            Cause::RecordsArea => 3,
            Cause::DigestRecord => 4,
            Cause::DigestDiffers => 5,
        }
    }
}

// The cause that a fault of the records is.
impl From<Fault> for Cause {
    ghost from_gives = { λ fault cause. cause ≡ cause_of_fault fault };

    #[tactic(auto, unfolding(crate::specs::Check::cause_of_fault))]
    fn from(fault: Fault) -> Cause {
        match fault {
            Fault::NotFilled => Cause::RecordsArea,
            Fault::NotOneDigest => Cause::DigestRecord,
        }
    }
}
