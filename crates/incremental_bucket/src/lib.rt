// One bucket of an IncrementalStMan file (RULES.md 6.4; Note 260, 3.4.3: Data Bucket): its check, which in
// the same pass finds the offset of the value that a row has in a column. No byte of the data part is read.
#![tactic(auto)]

pub mod offsets;
pub mod values;

ghost use Rattle.std.specs.Prelude.{◌≤◌, ◌+◌, length, ◌≡◌};
ghost use Rattle.bytes_at.specs.Number.{bytes_of};
ghost use Rattle.incremental_rules.specs.Bucket.{begun, bucket_head_at, column_part_at, column_parts_at, bucket_at};

use aipsio_rules::{Cursor, Value};
use bytes_at::Width;
use incremental_rules::BucketHead;

// What the part of each column in a bucket is read by: the width of a start, the length of the data part, how many rows the bucket
// has, and the local row that is asked for.
#[derive(Clone, Copy)]
pub struct InBucket {
    pub width: Width,
    pub limit: usize,
    pub rows: usize,
    pub row: usize,
}

// The beginning of a bucket, or zeros where the cursor is refused.
#[tactic(auto, unfolding(incremental_rules::specs::Bucket::begun))]
fn begin(c: Cursor, wide: bool, len: usize) -> BucketHead
    ensures { result ≡ begun c wide len }
{
    if c.refused != 0 {
        return BucketHead {
            wide: false,
            len: 0,
            next: c,
        };
    }
    BucketHead { wide, len, next: c }
}

// The index offset x of a bucket of so many bytes, in the low three bytes of its first number: how long its data part is, x - 4,
// and the cursor at its index part. The high byte tells whether its starts are Int64.
fn read_head(s: &[u8], c: Cursor, size: usize) -> BucketHead
    ensures { result ≡ bucket_head_at s.now c size }
{
    let word = aipsio::numbers::uint(s, c);
    let x = word.value % 16777216;
    let ok = (4..=size).contains(&x);
    let d = aipsio::judge(word.next, c.at, ok, 11);
    let len = x.saturating_sub(4);
    let n = aipsio::skip(d, len);
    begin(n, 16777216 <= word.value, len)
}

// A column's part of the index: the number of its values, their starts, their offsets. Gives the offset of the row's value.
// That the cursor's end lies in the slice stays a clause here, in `read_columns` and in what this calls: each call goes on with the cursor of the one
// before, so a struct of slice and cursor would be built again for each call, and its proof would need the clause `inside` all the same.
fn read_column(s: &[u8], c: Cursor, b: InBucket, bytes: usize) -> Value
    requires { c.end ≤ length s.now }
    ensures value { result ≡ column_part_at s.now c (bytes_of b.width) b.limit b.rows b.row bytes }
    ensures inside { result.next.end ≡ c.end }
{
    if c.refused != 0 {
        return Value { value: 0, next: c };
    }
    if aipsio::left(c) < 4 {
        return crate::values::refuse(c, c.at, 1);
    }
    let n = bytes_at::uint_there::<4>(s, c.at, c.big);
    if n == 0 {
        return crate::values::refuse(c, c.at, 11);
    }
    let d = Cursor { at: c.at + 4, ..c };
    let starts = crate::values::read_starts(s, d, b, n);
    crate::offsets::read_offsets(s, starts.next, n, b.limit, bytes, starts.hit)
}

// The columns in turn, whose values take so many bytes each. Gives the offset of the row's value in the column.
fn read_columns(s: &[u8], c: Cursor, b: InBucket, column: usize, bytes: &[usize]) -> Value
    requires { c.end ≤ length s.now }
    ensures { result ≡ column_parts_at s.now c (bytes_of b.width) b.limit b.rows b.row column bytes.now (length bytes.now) }
{
    let mut offset = 0;
    let mut next = c;
    for (k, n) in bytes.iter().enumerate() {
        let one = read_column(s, next, b, *n);
        if k == column {
            offset = one.value;
        }
        next = one.next;
    }
    Value {
        value: offset,
        next,
    }
}

// The bucket of `size` bytes from a place of the file on, in a table of the endianness given: it has so many rows, and the columns
// whose values take so many bytes each. Gives the offset of the value that the local row has in the column.
// Eight parameters, those of `bucket_at`: the one caller has each from another place, and a struct would be taken apart at once.
pub fn read_bucket(
    f: &[u8],
    at: usize,
    size: usize,
    big: bool,
    rows: usize,
    row: usize,
    column: usize,
    bytes: &[usize],
) -> Value
    requires { at + size ≤ length f.now }
    ensures value { result ≡ bucket_at f.now at size big rows row column bytes.now (length bytes.now) }
    ensures bounded { result.value ≤ size }
{
    let start = Cursor {
        at,
        end: at + size,
        big,
        refused: 0,
    };
    let head = read_head(f, start, size);
    let b = InBucket {
        width: Width::of_int(head.wide),
        limit: head.len,
        rows,
        row,
    };
    read_columns(f, head.next, b, column, bytes)
}
