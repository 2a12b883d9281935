// The objects of AipsIO (Note 260, sections 2 to 2.4): header and end, TableRecord, Block, SimpleOrderedMap and IPosition.
ghost use Rattle.std.specs.Prelude.{◌≡◌, ◌<◌, ◌≤◌};
ghost use Rattle.aipsio_rules.specs.Object.{entered, opened, closed, passed, record_at, block_head_at, block_at, rows_at, row_block_at, map_at, iposition_at, axis_into, axes_at, shape_at};
ghost use Rattle.bytes_at.specs.Number.{bytes_of};

use aipsio_rules::{Cursor, Value};
use bytes_at::Width;

// Into an object of len bytes whose header begins at `outer` and ends at the cursor: 1 where it ends after its container,
// 7 where it ends before its own header does, both at the header.
#[tactic(auto, unfolding(aipsio_rules::specs::Object::entered))]
pub fn enter(c: Cursor, outer: Cursor, len: usize) -> Cursor
    ensures { result ≡ entered c outer len }
{
    if c.refused != 0 {
        return c;
    }
    if crate::left(outer) < len {
        return crate::refuse(c, outer.at, 1);
    }
    let end = outer.at + len;
    if end < c.at {
        return crate::refuse(c, outer.at, 7);
    }
    Cursor { end, ..c }
}

// An object's header: its length, its name and its version, one of a range, and then its end against its container's.
// Gives the version, and the cursor at the object's first field.
pub fn open(s: &[u8], c: Cursor, expected: &[u8], low: usize, high: usize) -> Value
    ensures { result ≡ opened s.now c expected.now low high }
{
    let len = crate::numbers::uint(s, c);
    let d = crate::strings::name(s, len.next, expected);
    let v = crate::numbers::version(s, d, low, high);
    let e = enter(v.next, c, len.value);
    crate::settle(v.value, e)
}

// Out of an object whose last field is read: 7, at its header, where bytes are left over.
#[tactic(auto, unfolding(aipsio_rules::specs::Object::closed))]
pub fn close(c: Cursor, outer: Cursor) -> Cursor
    ensures { result ≡ closed c outer }
{
    if c.refused != 0 {
        return c;
    }
    if c.at != c.end {
        return crate::refuse(c, outer.at, 7);
    }
    Cursor {
        end: outer.end,
        ..c
    }
}

// Out of an object whose fields are not looked at.
#[tactic(auto, unfolding(aipsio_rules::specs::Object::passed))]
pub fn pass(c: Cursor, outer: Cursor) -> Cursor
    ensures { result ≡ passed c outer }
{
    if c.refused != 0 {
        return c;
    }
    Cursor {
        at: c.end,
        end: outer.end,
        ..c
    }
}

// A TableRecord, passed over by its length.
pub fn record(s: &[u8], c: Cursor) -> Cursor
    ensures { result ≡ record_at s.now c }
{
    let o = open(s, c, b"TableRecord", 1, 1);
    pass(o.next, c)
}

// Into a Block of n elements: its header and its count.
fn block_head(s: &[u8], c: Cursor, n: usize) -> Cursor
    ensures { result ≡ block_head_at s.now c n }
{
    let o = open(s, c, b"Block", 1, 1);
    crate::numbers::agree(s, o.next, n)
}

// A Block of n uInts: where they start, and the cursor past it.
pub fn block(s: &[u8], c: Cursor, n: usize) -> Value
    ensures { result ≡ block_at s.now c n }
{
    let k = block_head(s, c, n);
    let e = crate::skip_each(k, n, 4);
    let d = close(e, c);
    crate::settle(k.at, d)
}

// Past n row numbers, up to the first that is refused: 4 where it is negative. No more are looked at than there is room for,
// whatever n is.
fn rows(s: &[u8], c: Cursor, n: usize, width: Width) -> Cursor
    ensures { result ≡ rows_at s.now c n (bytes_of width) }
{
    if c.refused != 0 {
        return c;
    }
    let size = width.bytes();
    let room = crate::left(c) / size;
    let m = n.min(room);
    for k in 0..m {
        let at = c.at + k * size;
        let v = bytes_at::number(s, at, c.big, width);
        if 9223372036854775807 < v {
            return crate::refuse(c, at, 4);
        }
    }
    if m < n {
        return crate::refuse(c, c.at + m * size, 1);
    }
    Cursor {
        at: c.at + n * size,
        ..c
    }
}

// A Block of n row numbers: where they start, and the cursor past it.
pub fn row_block(s: &[u8], c: Cursor, n: usize, width: Width) -> Value
    ensures { result ≡ row_block_at s.now c n (bytes_of width) }
{
    let k = block_head(s, c, n);
    let e = rows(s, k, n, width);
    let d = close(e, c);
    crate::settle(k.at, d)
}

// A SimpleOrderedMap of Int to Int. Its keys and values are passed over.
pub fn map(s: &[u8], c: Cursor) -> Cursor
    ensures { result ≡ map_at s.now c }
{
    let o = open(s, c, b"SimpleOrderedMap", 1, 1);
    let default = crate::numbers::uint(s, o.next);
    let n = crate::numbers::uint(s, default.next);
    let increment = crate::numbers::uint(s, n.next);
    let e = crate::skip_each(increment.next, 2 * n.value, 4);
    close(e, c)
}

// An IPosition whose count and axes are not judged. An axis is an Int in version 1, an Int64 in version 2.
pub fn iposition(s: &[u8], c: Cursor) -> Cursor
    ensures { result ≡ iposition_at s.now c }
{
    let o = open(s, c, b"IPosition", 1, 2);
    let n = crate::numbers::uint(s, o.next);
    let width = Width::of_int(o.value == 2);
    let e = crate::skip_each(n.next, n.value, width.bytes());
    close(e, c)
}

// One axis more: 1 to 1,048,576, and so is the product so far, else 4.
fn add_axis(s: &[u8], product: Value, width: Width) -> Value
    requires { product.value ≤ 1048576 }
    ensures value { result ≡ axis_into s.now (bytes_of width) product }
    ensures bounded { result.value ≤ 1048576 }
{
    let axis = crate::numbers::number(s, product.next, width, 1, 1048576);
    let more = product.value * axis.value;
    let d = crate::judge(axis.next, product.next.at, more <= 1048576, 4);
    crate::settle(more, d)
}

// The product of n axes.
fn axes(s: &[u8], c: Cursor, n: usize, width: Width) -> Value
    ensures value { result ≡ axes_at s.now c n (bytes_of width) }
    ensures bounded { result.value ≤ 1048576 }
{
    let mut product = Value { value: 1, next: c };
    for _ in 0..n {
        product = add_axis(s, product, width);
    }
    product
}

// The IPosition of a fixed shape of so many dimensions: 1 to 8, else 4, and the stated dimensionality, else 5.
// Gives the product of its axes.
pub fn shape(s: &[u8], c: Cursor, dimensions: usize) -> Value
    ensures value { result ≡ shape_at s.now c dimensions }
    ensures bounded { result.value ≤ 1048576 }
{
    let o = open(s, c, b"IPosition", 1, 2);
    let n = crate::numbers::number(s, o.next, Width::Four, 1, 8);
    let k = crate::judge(n.next, o.next.at, n.value == dimensions, 5);
    let width = Width::of_int(o.value == 2);
    let product = axes(s, k, n.value, width);
    let d = close(product.next, c);
    crate::settle(product.value, d)
}
