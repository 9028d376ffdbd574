// The C boundary: include/scale.h has the C side. Each function passes its arguments on to that of its name in `scale`, and promises the same.
// stays: a function for each of `scale`: C needs these names, and a crate is a library or, as this one, a static library.
#![tactic(auto)]

ghost use Rattle.std.specs.Prelude.{◌≡◌};
ghost use Rattle.causes.specs.Check.{cause_of, check};
ghost use Rattle.records.specs.Records.{step_at};
ghost use Rattle.record_reader.specs.Numbers.{step_numbers};
ghost use Rattle.marking.specs.Marking.{marking, confirming};
ghost use Rattle.loader.specs.PowerUp.{full_start, power_up};
ghost use Rattle.plan.specs.Asked.{flash_of};
ghost use Rattle.scale.specs.Boundary.{geometry_of, numbered, start_numbered, mark_numbered};
ghost use Rattle.fips.specs.Fips.{sha256};

use answers::numbers::{MarkNumbers, Numbers};
use record_reader::numbers::RecordNumbers;

// SHA-256 of the message, into the digest.
#[unsafe(no_mangle)]
pub extern "C" fn scale_sha256(message: &[u8], digest: &mut [u8; 32])
    ensures { digest.new ≡ sha256 message.now }
{
    scale::scale_sha256(message, digest);
}

// 0 where the bytes begin with an image, else the cause.
#[unsafe(no_mangle)]
pub extern "C" fn scale_check_image(image: &[u8]) -> u32
    ensures { result ≡ cause_of (check image.now) }
{
    scale::scale_check_image(image)
}

// What stands at a place of the trailing records.
#[unsafe(no_mangle)]
pub extern "C" fn scale_record_at(records: &[u8], at: usize) -> RecordNumbers
    ensures { result ≡ step_numbers (step_at records.now at) }
{
    scale::scale_record_at(records, at)
}

// The plain start.
#[unsafe(no_mangle)]
pub extern "C" fn scale_power_up(
    unit: usize,
    sector: usize,
    sectors: usize,
    slot0: &mut [u8],
    slot1: &mut [u8],
    scratch: &mut [u8],
    allowance: u64,
) -> Numbers
    ensures { numbered result (flash_of slot0.new slot1.new scratch.new)
        ≡ start_numbered (power_up (geometry_of unit sector sectors) allowance
        (flash_of slot0.old slot1.old scratch.old)) }
{
    scale::scale_power_up(unit, sector, sectors, slot0, slot1, scratch, allowance)
}

// The full start.
#[unsafe(no_mangle)]
pub extern "C" fn scale_full_start(
    unit: usize,
    sector: usize,
    sectors: usize,
    slot0: &mut [u8],
    slot1: &mut [u8],
    scratch: &mut [u8],
    allowance: u64,
    checked: bool,
) -> Numbers
    ensures { numbered result (flash_of slot0.new slot1.new scratch.new)
        ≡ start_numbered (full_start checked (geometry_of unit sector sectors) allowance
        (flash_of slot0.old slot1.old scratch.old)) }
{
    scale::scale_full_start(
        unit, sector, sectors, slot0, slot1, scratch, allowance, checked,
    )
}

// Marks slot 1.
#[unsafe(no_mangle)]
pub extern "C" fn scale_mark(
    unit: usize,
    sector: usize,
    sectors: usize,
    slot0: &[u8],
    slot1: &mut [u8],
    scratch: &[u8],
    permanent: bool,
) -> MarkNumbers
    ensures { numbered result (flash_of slot0.now slot1.new scratch.now)
        ≡ mark_numbered (marking permanent (geometry_of unit sector sectors)
        (flash_of slot0.now slot1.old scratch.now)) }
{
    scale::scale_mark(unit, sector, sectors, slot0, slot1, scratch, permanent)
}

// Confirms slot 0.
#[unsafe(no_mangle)]
pub extern "C" fn scale_confirm(
    unit: usize,
    sector: usize,
    sectors: usize,
    slot0: &mut [u8],
    slot1: &[u8],
    scratch: &[u8],
) -> MarkNumbers
    ensures { numbered result (flash_of slot0.new slot1.now scratch.now)
        ≡ mark_numbered (confirming (geometry_of unit sector sectors)
        (flash_of slot0.old slot1.now scratch.now)) }
{
    scale::scale_confirm(unit, sector, sectors, slot0, slot1, scratch)
}
