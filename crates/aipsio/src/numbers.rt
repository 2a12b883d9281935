// Numbers in AipsIO (Note 260, section 2): of a range, versions, codes, counts, the mark and Bool bytes.
ghost use Rattle.std.specs.Prelude.{◌≡◌, ◌<◌, ◌≤◌};
ghost use Rattle.bytes_at.specs.Number.{bytes_of};
ghost use Rattle.aipsio_rules.specs.Field.{sized_at, uint_at, ranged_at, number_at, version_at, code_at, agreed, mark_at, flag_at};

use aipsio_rules::{Cursor, Value};
use bytes_at::Width;

// A number of as many bytes as the width says.
// A refused cursor leaves early, here and in what follows: a value chosen at the end of each field makes the next one wait for it.
#[inline(always)]
pub fn sized(s: &[u8], c: Cursor, width: Width) -> Value
    ensures { result ≡ sized_at s.now c (bytes_of width) }
{
    if c.refused != 0 {
        return Value { value: 0, next: c };
    }
    let size = width.bytes();
    if crate::left(c) < size {
        let d = crate::refuse(c, c.at, 1);
        return Value { value: 0, next: d };
    }
    Value {
        value: bytes_at::number(s, c.at, c.big, width),
        next: Cursor {
            at: c.at + size,
            refused: 0,
            ..c
        },
    }
}

// A uInt, or an Int as the uInt of the same bytes.
pub fn uint(s: &[u8], c: Cursor) -> Value
    ensures value { result ≡ uint_at s.now c }
    ensures bounded { result.value < 4294967296 }
{
    sized(s, c, Width::Four)
}

// A number of a range, refused with the number given outside it.
pub fn ranged(s: &[u8], c: Cursor, width: Width, low: usize, high: usize, refusal: usize) -> Value
    ensures { result ≡ ranged_at s.now c (bytes_of width) low high refusal }
{
    let n = sized(s, c, width);
    if n.next.refused != 0 {
        return n;
    }
    let ok = low <= n.value && n.value <= high;
    if ok {
        return n;
    }
    let d = crate::refuse(n.next, c.at, refusal);
    crate::settle(n.value, d)
}

// A number of a range, else 4.
pub fn number(s: &[u8], c: Cursor, width: Width, low: usize, high: usize) -> Value
    ensures value { result ≡ number_at s.now c (bytes_of width) low high }
    ensures bounded { result.value ≤ high }
{
    ranged(s, c, width, low, high, 4)
}

// A version of a range, else 3.
// `number`, `version` and `code` are `ranged` under the names by which their refusals are told apart.
pub fn version(s: &[u8], c: Cursor, low: usize, high: usize) -> Value
    ensures { result ≡ version_at s.now c low high }
{
    ranged(s, c, Width::Four, low, high, 3)
}

// A number that stands for one of a few things, else 5.
pub fn code(s: &[u8], c: Cursor, low: usize, high: usize) -> Value
    ensures value { result ≡ code_at s.now c low high }
    ensures bounded { result.value ≤ high }
{
    ranged(s, c, Width::Four, low, high, 5)
}

// A count that was stated before, else 6.
pub fn agree(s: &[u8], c: Cursor, expected: usize) -> Cursor
    ensures { result ≡ agreed s.now c expected }
{
    ranged(s, c, Width::Four, expected, expected, 6).next
}

// The mark before an outermost object, else 2.
pub fn mark(s: &[u8], c: Cursor) -> Cursor
    ensures { result ≡ mark_at s.now c }
{
    ranged(s, c, Width::Four, 0xbebebebe, 0xbebebebe, 2).next
}

// A Bool byte, 0 or 1, else 5.
pub fn flag(s: &[u8], c: Cursor) -> Value
    ensures value { result ≡ flag_at s.now c }
    ensures bounded { result.value ≤ 1 }
{
    ranged(s, c, Width::One, 0, 1, 5)
}
