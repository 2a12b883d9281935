// The offsets of one column's values in a bucket of an IncrementalStMan file (RULES.md 6.4; Note 260, 3.4.3: Data Bucket).
// No byte of the data part is read.
ghost use Rattle.std.specs.Prelude.{◌≡◌, ◌+◌, ◌≤◌, leb, length};
ghost use Rattle.incremental_rules.specs.Bucket.{offsets_at};

use aipsio_rules::{Cursor, Value};

// Whether so many bytes from an offset on lie within the limit.
fn lies_within(offset: usize, bytes: usize, limit: usize) -> bool
    ensures { result ≡ leb (offset + bytes) limit }
{
    bytes <= limit && offset <= limit - bytes
}

// The n offsets of a column whose values take so many bytes, up to the first that is refused: gives the one of value `hit`. No
// more are looked at than the bucket has room for, whatever n is.
pub fn read_offsets(s: &[u8], c: Cursor, n: usize, limit: usize, bytes: usize, hit: usize) -> Value
    requires { c.end ≤ length s.now }
    ensures value { result ≡ offsets_at s.now c n limit bytes hit }
    ensures inside { result.next.end ≡ c.end }
{
    if c.refused != 0 {
        return Value { value: 0, next: c };
    }
    let m = n.min(aipsio::left(c) / 4);
    // `at` goes on beside `i`: behind the loop it is where the refusal and the cursor stand; else its formula would stand twice.
    let mut at = c.at;
    let mut offset = 0;
    for i in 0..m {
        let v = bytes_at::uint_there::<4>(s, at, c.big);
        if !lies_within(v, bytes, limit) {
            return crate::values::refuse(c, at, 11);
        }
        if i == hit {
            offset = v;
        }
        at += 4;
    }
    if m < n {
        return crate::values::refuse(c, at, 1);
    }
    Value {
        value: offset,
        next: Cursor { at, ..c },
    }
}
