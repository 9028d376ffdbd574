// The trailing records: what stands at a place of their area, and the walk over all of them.
#![tactic(auto)]

ghost use Rattle.std.specs.Prelude.{◌≡◌, ◌+◌, ◌^◌, ◌<◌, ◌≤◌, length};
ghost use Rattle.records.specs.Records.{step_at, records};
ghost use Rattle.records.specs.Walk.{Walked, walked, place_or_cause};
ghost use Rattle.spans.specs.Choice.{pick};

// What stands at a place of an area of records: nothing more, bytes that make no whole record, or a record, whose size bytes begin
// at start.
// stays: three cases, each with a name; `Option<Result<Record, Stump>>` would wrap the same three in two types.
#[derive(Clone, Copy)]
pub enum Step {
    End,
    Stump,
    Record { kind: u8, start: usize, size: usize },
}

// Why the records of an area name no digest: they do not fill the area, or there is not exactly one digest record of 32 bytes.
#[derive(Clone, Copy, PartialEq, Eq)]
pub enum Fault {
    NotFilled,
    NotOneDigest,
}

// What stands at a place of an area of records. The walk and the reader both go by it.
pub fn step_at(area: &[u8], at: usize) -> Step
    ensures { result ≡ step_at area.now at }
{
    if area.len() <= at {
        return Step::End;
    }
    let left = area.len() - at;
    if left < 4 {
        return Step::Stump;
    }
    let size = fields::two(area, at + 2);
    if left - 4 < size {
        return Step::Stump;
    }
    Step::Record {
        kind: area[at],
        start: at + 4,
        size,
    }
}

// "The digest record has type 1."
const DIGEST: u8 = 1;

// The digest records that the walk has met: how many, and of the last where its bytes stand in the image, and how many they are.
#[derive(Clone, Copy, Default)]
struct Digests {
    count: usize,
    place: usize,
    size: usize,
}

impl Digests {
    // Where the one digest of 32 bytes stands, if there is just that.
    #[tactic(auto, unfolding(crate::specs::Walk::place_or_cause))]
    fn only(self) -> Result<usize, Fault>
        ensures { result ≡ place_or_cause (Walked.Filled self.count self.place self.size) }
    {
        if self.count == 1 && self.size == 32 {
            Ok(self.place)
        } else {
            Err(Fault::NotOneDigest)
        }
    }
}

// The first record, and then the rest of the area by the same rule: whether the records fill the area, which stands at `at` of the
// image. Those of type 1 are added to the digests met before.
// stays: a bool, and the digests beside it: so the call is the last act, a jump; a Result takes 48 bytes of stack for each record, and
// there may be 16,375 (fixed memory). And a recursion, which document 01 asks for.
#[tactic(auto, using(crate::specs::RecordLaws::whole_of, crate::specs::WalkLaws::walk_end, crate::specs::WalkLaws::walk_stump))]
fn walk(area: &mut &[u8], at: usize, digests: &mut Digests) -> bool
    requires { (digests.old.count ≤ at) × (at + length area.old.now < 2 ^ 64) }
    ensures { walked (records area.old.now) at digests.old.count digests.old.place digests.old.size
        ≡ pick result (Walked.Filled digests.new.count digests.new.place digests.new.size) Walked.Short }
{
    let all = *area;
    match step_at(all, 0) {
        Step::End => true,
        Step::Stump => false,
        Step::Record { kind, start, size } => {
            if kind == DIGEST {
                *digests = Digests {
                    count: digests.count + 1,
                    place: at + start,
                    size,
                };
            }
            let next = start + size;
            *area = &all[next..];
            walk(area, at + next, digests)
        }
    }
}

// Where the one digest of 32 bytes stands, of the whole area, which stands at `at` of the image; or why the records name none.
#[tactic(auto, unfolding(crate::specs::Walk::place_or_cause))]
pub fn digest_place(area: &[u8], at: usize) -> Result<usize, Fault>
    requires { at + length area.now < 2 ^ 64 }
    ensures { result ≡ place_or_cause (walked (records area.now) at 0 0 0) }
{
    let mut rest = area;
    let mut digests = Digests::default();
    if walk(&mut rest, at, &mut digests) {
        digests.only()
    } else {
        Err(Fault::NotFilled)
    }
}
