// The cursor through which the fields of AipsIO (Note 260, section 2) are read. It goes by value and keeps its first refusal: a read
// after a refusal leaves the cursor as it is and gives 0, and a refused read leaves the place where the failing field begins.
#![tactic(auto)]

pub mod numbers;
pub mod objects;
pub mod strings;

ghost use Rattle.std.specs.Prelude.{◌≡◌, ◌<◌, ◌≤◌};
ghost use Rattle.aipsio_rules.specs.Field.{left_in, refused_at, refusal_in, skipped, skipped_each, judged, settled};

use aipsio_rules::{Cursor, Value};
use bytes_at::Refusal;

// How many bytes the enclosing object has left.
pub fn left(c: Cursor) -> usize
    ensures { result ≡ left_in c }
{
    c.end.saturating_sub(c.at)
}

// Refused with the number, at the field that begins at `from`.
pub fn refuse(c: Cursor, from: usize, number: usize) -> Cursor
    ensures { result ≡ refused_at c from number }
{
    Cursor {
        at: from,
        refused: number,
        ..c
    }
}

// Why the cursor is refused.
pub fn refusal(c: Cursor) -> Refusal
    ensures { result ≡ refusal_in c }
{
    bytes_at::blame(c.refused, c.at)
}

// Past a field of n bytes; 1 where the enclosing object ends before.
// Fields are chosen here and in `judge`, not whole cursors: of those the gap is copied too, and Description takes 1.6 times as long.
#[tactic(auto, unfolding(aipsio_rules::specs::Field::skipped))]
pub fn skip(c: Cursor, n: usize) -> Cursor
    ensures { result ≡ skipped c n }
{
    let (at, refused) = if c.refused != 0 {
        (c.at, c.refused)
    } else if left(c) < n {
        (c.at, 1)
    } else {
        (c.at + n, 0)
    };
    Cursor { at, refused, ..c }
}

// Past n fields of `size` bytes each; 1 at the first that the enclosing object has no room for.
#[tactic(auto, unfolding(aipsio_rules::specs::Field::skipped_each))]
pub fn skip_each(c: Cursor, n: usize, size: usize) -> Cursor
    requires { 0 < size }
    ensures { result ≡ skipped_each c n size }
{
    if c.refused != 0 {
        return c;
    }
    let room = left(c) / size;
    if room < n {
        return refuse(c, c.at + room * size, 1);
    }
    Cursor {
        at: c.at + n * size,
        ..c
    }
}

// Refused with the number, at the field that begins at `from`, unless the test holds.
#[tactic(auto, unfolding(aipsio_rules::specs::Field::judged))]
pub fn judge(c: Cursor, from: usize, ok: bool, number: usize) -> Cursor
    ensures { result ≡ judged c from ok number }
{
    let (at, refused) = if c.refused != 0 || ok {
        (c.at, c.refused)
    } else {
        (from, number)
    };
    Cursor { at, refused, ..c }
}

// The number, 0 where the cursor is refused.
#[tactic(auto, unfolding(aipsio_rules::specs::Field::settled))]
pub fn settle(value: usize, c: Cursor) -> Value
    ensures value { result ≡ settled value c }
    ensures bounded { result.value ≤ value }
{
    let value = if c.refused == 0 { value } else { 0 };
    Value { value, next: c }
}
