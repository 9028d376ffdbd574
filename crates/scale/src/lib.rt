// The functions of the C boundary, which `scale_c` exports. Each passes its arguments on, and answers in document 01's numbers.
#![tactic(auto)]

ghost use Rattle.std.specs.Prelude.{◌≡◌};
ghost use Rattle.causes.specs.Check.{cause_of, check};
ghost use Rattle.records.specs.Records.{step_at};
ghost use Rattle.record_reader.specs.Numbers.{step_numbers};
ghost use Rattle.marking.specs.Marking.{marking, confirming};
ghost use Rattle.loader.specs.PowerUp.{full_start, power_up};
ghost use Rattle.plan.specs.Asked.{flash_of};
ghost use Rattle.scale.specs.Boundary.{geometry_of, numbered, start_numbered, mark_numbered};
ghost use Rattle.fips.specs.Fips.{sha256};

use answers::numbers::{MarkNumbers, Numbers};
use flash::Geometry;
use record_reader::numbers::RecordNumbers;

// SHA-256 of the message, into the digest.
pub fn scale_sha256(message: &[u8], digest: &mut [u8; 32])
    ensures { digest.new ≡ sha256 message.now }
{
    sha256::digest(message, digest);
}

// 0 where the bytes begin with an image, else the cause.
pub fn scale_check_image(image: &[u8]) -> u32
    ensures { result ≡ cause_of (check image.now) }
{
    image::cause_number(image)
}

// What stands at a place of the trailing records.
pub fn scale_record_at(records: &[u8], at: usize) -> RecordNumbers
    ensures { result ≡ step_numbers (step_at records.now at) }
{
    RecordNumbers::from(record_reader::record_at(records, at))
}

// stays: the three numbers and the three areas go side by side in each function below, as the C interface has them.
fn geometry(unit: usize, sector: usize, sectors: usize) -> Geometry
    ensures { result ≡ geometry_of unit sector sectors }
{
    Geometry {
        unit,
        sector,
        sectors,
    }
}

// The plain start.
pub fn scale_power_up(
    unit: usize,
    sector: usize,
    sectors: usize,
    slot0: &mut [u8],
    slot1: &mut [u8],
    scratch: &mut [u8],
    allowance: u64,
) -> Numbers
    ensures { numbered result (flash_of slot0.new slot1.new scratch.new)
        ≡ start_numbered (power_up (geometry_of unit sector sectors) allowance
        (flash_of slot0.old slot1.old scratch.old)) }
{
    let g = geometry(unit, sector, sectors);
    Numbers::from(loader::power_up(g, slot0, slot1, scratch, allowance))
}

// The full start.
pub fn scale_full_start(
    unit: usize,
    sector: usize,
    sectors: usize,
    slot0: &mut [u8],
    slot1: &mut [u8],
    scratch: &mut [u8],
    allowance: u64,
    checked: bool,
) -> Numbers
    ensures { numbered result (flash_of slot0.new slot1.new scratch.new)
        ≡ start_numbered (full_start checked (geometry_of unit sector sectors) allowance
        (flash_of slot0.old slot1.old scratch.old)) }
{
    let g = geometry(unit, sector, sectors);
    Numbers::from(loader::full_start(g, slot0, slot1, scratch, allowance, checked))
}

// Marks slot 1.
pub fn scale_mark(
    unit: usize,
    sector: usize,
    sectors: usize,
    slot0: &[u8],
    slot1: &mut [u8],
    scratch: &[u8],
    permanent: bool,
) -> MarkNumbers
    ensures { numbered result (flash_of slot0.now slot1.new scratch.now)
        ≡ mark_numbered (marking permanent (geometry_of unit sector sectors)
        (flash_of slot0.now slot1.old scratch.now)) }
{
    let g = geometry(unit, sector, sectors);
    MarkNumbers::from(marking::mark(g, slot0, slot1, scratch, permanent))
}

// Confirms slot 0.
pub fn scale_confirm(
    unit: usize,
    sector: usize,
    sectors: usize,
    slot0: &mut [u8],
    slot1: &[u8],
    scratch: &[u8],
) -> MarkNumbers
    ensures { numbered result (flash_of slot0.new slot1.now scratch.now)
        ≡ mark_numbered (confirming (geometry_of unit sector sectors)
        (flash_of slot0.old slot1.now scratch.now)) }
{
    let g = geometry(unit, sector, sectors);
    MarkNumbers::from(marking::confirm(g, slot0, slot1, scratch))
}
