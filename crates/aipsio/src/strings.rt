// Strings and names in AipsIO (Note 260, section 2): a length and its bytes, one field.
ghost use Rattle.std.specs.Prelude.{◌≡◌, ◌<◌, ◌≤◌};
ghost use Rattle.aipsio_rules.specs.Field.{text_at, container_of, string_at, name_at};

use aipsio_rules::{Cursor, Text};

// Nothing was read.
fn no_text(c: Cursor) -> Text
    ensures { result ≡ record { start = 0; len = 0; next = c } }
{
    Text {
        start: 0,
        len: 0,
        next: c,
    }
}

// A String: its length and its bytes are one field.
pub fn any_string(s: &[u8], c: Cursor) -> Text
    ensures value { result ≡ text_at s.now c }
    ensures bounded { result.len < 4294967296 }
{
    if c.refused != 0 {
        return no_text(c);
    }
    let len = bytes_at::uint::<4>(s, c.at, c.big);
    let size = 4 + len;
    if crate::left(c) < size {
        let d = crate::refuse(c, c.at, 1);
        return no_text(d);
    }
    Text {
        start: c.at + 4,
        len,
        next: Cursor {
            at: c.at + size,
            refused: 0,
            ..c
        },
    }
}

// Into the bytes of a String, as the container of what stands in them.
#[tactic(auto, unfolding(aipsio_rules::specs::Field::container_of))]
pub fn container(t: Text) -> Cursor
    ensures { result ≡ container_of t }
{
    if t.next.refused != 0 {
        return t.next;
    }
    Cursor {
        at: t.start,
        end: t.next.at,
        ..t.next
    }
}

// A String whose length lies in a range, else 4.
pub fn string(s: &[u8], c: Cursor, low: usize, high: usize) -> Text
    ensures value { result ≡ string_at s.now c low high }
    ensures bounded { result.len ≤ high }
{
    let t = any_string(s, c);
    let refused = t.next.refused;
    if refused != 0 {
        return t;
    }
    let ok = low <= t.len && t.len <= high;
    if ok {
        return t;
    }
    let d = crate::refuse(t.next, c.at, 4);
    no_text(d)
}

// A String that has to be the name given, else 2.
pub fn name(s: &[u8], c: Cursor, expected: &[u8]) -> Cursor
    ensures { result ≡ name_at s.now c expected.now }
{
    let t = any_string(s, c);
    if t.next.refused != 0 {
        return t.next;
    }
    if bytes_at::is_at(s, t.start, t.len, expected) {
        return t.next;
    }
    crate::refuse(t.next, c.at, 2)
}
