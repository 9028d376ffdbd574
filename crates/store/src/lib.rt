// Stores in an area: what lies beyond the end of a slice is neither read nor written, as in the definitions of part and put.
#![tactic(auto)]

ghost use Rattle.std.specs.Prelude.{◌≡◌, ◌*◌, ◌+◌, ◌-◌, ◌/◌, min, length};
ghost use Rattle.spans.specs.Bytes.{put, blank, part};
ghost use Rattle.spans.specs.Blanks.{blanks};

use std::ops::Range;

// Where those of the size bytes from at on stand that are there.
fn there(length: usize, at: usize, size: usize) -> Range<usize>
    ensures start { result.start ≡ min at length }
    ensures end { result.end ≡ min at length + min size (length - at) }
{
    let start = at.min(length);
    start..start + size.min(length - start)
}

// The size bytes from at on are made 0xff.
pub fn fill(area: &mut [u8], at: usize, size: usize)
    ensures { area.new ≡ put area.old at (blank size) }
{
    let span = there(area.len(), at, size);
    // stays: no `fill`: it takes a power-up 16 to 48 bytes more of stack, which a firmware has to set aside (fixed memory).
    for byte in area[span].iter_mut() {
        *byte = 255;
    }
}

// The bytes go to the front of area, as far as it reaches.
// stays: by number: of what a `for` writes through `iter_mut().zip(..)` a proof learns nothing, and
// copy_from_slice of a length that the compiler does not know is a call of memcpy, where the archive needs memset alone (tests/c/run).
fn overwrite(area: &mut [u8], bytes: &[u8])
    ensures { area.new ≡ put area.old 0 bytes.now }
{
    for i in 0..area.len().min(bytes.len()) {
        area[i] = bytes[i];
    }
}

// The size bytes of src from from on go to dst from at on.
// stays: places and a size beside the slices, as in `fill` and `copy_blank`: `put` and `part` in their promises take any numbers.
pub fn copy(src: &[u8], from: usize, dst: &mut [u8], at: usize, size: usize)
    ensures { dst.new ≡ put dst.old at (part src.now from size) }
{
    let bytes = &src[there(src.len(), from, size)];
    let span = there(dst.len(), at, bytes.len());
    overwrite(&mut dst[span], bytes);
}

// Block after block is looked at and then copied: one fixed length, which the compiler unrolls, and what was looked at is still near.
fn copy_blank_blocks(bytes: &[u8], area: &mut [u8]) -> usize
    ensures value { result ≡ blanks 512 0 (min (length bytes.now) (length area.old) / 512) area.old }
    ensures area_after { area.new ≡ put area.old 0 (part bytes.now 0 (result * 512)) }
{
    let blocks = bytes.len().min(area.len()) / 512;
    for k in 0..blocks {
        let start = k * 512;
        let end = start + 512;
        if !compare::all_blank(&area[start..end], 0, 512) {
            return k;
        }
        overwrite(&mut area[start..end], &bytes[start..end]);
    }
    blocks
}

// The size bytes of src from from on go to dst from at on, in blocks of 512 bytes as long as those of dst are blank. Answers how many
// blocks that were; the bytes behind them are left for another.
pub fn copy_blank(src: &[u8], from: usize, dst: &mut [u8], at: usize, size: usize) -> usize
    ensures value { result ≡ blanks 512 at (min (min size (length src.now - from)) (length dst.old - at) / 512)
        dst.old }
    ensures dst_after { dst.new ≡ put dst.old at (part src.now from (result * 512)) }
{
    let bytes = &src[there(src.len(), from, size)];
    let span = there(dst.len(), at, bytes.len());
    copy_blank_blocks(bytes, &mut dst[span])
}
