// What the files of both managers share (RULES.md 5.1, 5.2 and 6.1): where the header's container ends,
// the header's Bool, and the file's length.
ghost use Rattle.std.specs.Prelude.{◌≡◌, ◌≢◌, ◌≤◌, length, IfOk, IfErr};
ghost use Rattle.standard_rules.specs.Header.{header_room, same_endian};
ghost use Rattle.standard_rules.specs.Check.{long_enough};
ghost use Rattle.buckets.specs.Stages.{before_buckets};

use crate::Buckets;
use bytes_at::Refusal;

// Where the header's container ends: at 512, or with the file.
pub fn header_room(len: usize) -> usize
    ensures { result ≡ header_room len }
{
    len.min(512)
}

// Whether the header's Bool is the table's endianness.
// A Bool that was read is 0 or 1: `flag_at` gives a `Value`.
pub fn same_endian(flag: usize, big: bool) -> bool
    ensures { result ≡ same_endian flag big }
{
    flag == big as usize
}

// Whether a file of len bytes holds all its buckets.
pub fn long_enough(len: usize, size: usize, count: usize) -> bool
    requires { (size ≤ 1048576) × (count ≤ 4096) }
    ensures { result ≡ long_enough len size count }
{
    512 + count * size <= len
}

// The buckets of a file whose header has these numbers. Else the refusal: the one so far, the header's own, or 1 where the file is too
// short.
pub fn after_header<'f>(
    refused: Refusal,
    own: Refusal,
    file: &'f [u8],
    size: usize,
    count: usize,
) -> Result<Buckets<'f>, Refusal>
    requires { (size ≤ 1048576) × (count ≤ 4096) × (own.number ≡ 0 → 16 ≤ size) }
    ensures refused { IfErr result (λ why. (why ≡ before_buckets refused own (length file.now) size count) × (why.number ≢ 0)) }
    ensures held { IfOk result (λ b. ((before_buckets refused own (length file.now) size count).number ≡ 0) × (b.file.now ≡ file.now) × (b.size ≡ size) × (b.count ≡ count)) }
{
    if refused.number != 0 {
        return Err(refused);
    }
    if own.number != 0 {
        return Err(own);
    }
    Buckets::of(file, size, count).ok_or(Refusal {
        number: 1,
        byte: file.len(),
    })
}
