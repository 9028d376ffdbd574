// The trailing records, one after the other, through a reader that borrows their area and remembers its place; it leaves the work to the
// function that the walk goes by. Whoever calls `record_at` needs to know nothing of a reader.
#![tactic(auto)]

ghost use Rattle.std.specs.Prelude.{◌≡◌};
ghost use Rattle.records.specs.Records.{step_at};

use records::{Step, step_at};

pub mod numbers;

#[derive(Clone, Copy)]
pub struct Reader<'a> {
    pub area: &'a [u8],
    pub at: usize,
}

impl<'a> Reader<'a> {
    pub fn new(area: &'a [u8]) -> Reader<'a>
        ensures { (result.area ≡ area.entry) × (result.at ≡ 0) }
    {
        Reader { area, at: 0 }
    }

    // The record at the reader's place, `End` where the area ends there, `Stump` where what is left makes no record.
    // stays: an `Iterator`'s `next` would move the reader on, which this promises not to, and end with one `None` for both.
    pub fn next(self) -> Step
        ensures { result ≡ step_at self.entry.area.now self.entry.at }
    {
        step_at(self.area, self.at)
    }

    // The reader at another place, as behind the record that was found.
    pub fn moved(self, at: usize) -> Reader<'a>
        ensures { (result.area ≡ self.entry.area) × (result.at ≡ at) }
    {
        Reader { at, ..self }
    }
}

// What stands at a place of an area, as a reader that is moved there tells it.
pub fn record_at(area: &[u8], at: usize) -> Step
    ensures { result ≡ step_at area.now at }
{
    Reader::new(area).moved(at).next()
}
