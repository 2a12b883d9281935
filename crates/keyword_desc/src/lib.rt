// RecordDesc (RULES.md 4.14; Note 260, section 2.4): the description of a record, which holds the descriptions of the records in it.
#![tactic(auto)]

ghost use Rattle.std.specs.Prelude.{◌≡◌};
ghost use Rattle.keyword_rules.specs.RecordDesc.{may_hold, field_head_at, is_iposition, counted_at, shape_in_desc_at, specific_at, comment_at, type_desc_at};

use aipsio_rules::Cursor;
use bytes_at::Width;
use keyword_rules::{FieldHead, RECORD, TABLE};

// Whether a field of a type may stand in a record in which records may be held `deeper` levels deep.
fn may_hold(number: usize, deeper: usize) -> bool
    ensures { result ≡ may_hold number deeper }
{
    number != RECORD || 0 < deeper
}

// Name and type: 5 for a number that is no type, 15 for a record that is deeper than eight.
pub fn read_head(s: &[u8], c: Cursor, deeper: usize) -> FieldHead
    ensures { result ≡ field_head_at s.now c deeper }
{
    let name = aipsio::strings::string(s, c, 0, 4096);
    let t = aipsio::numbers::uint(s, name.next);
    let known = keyword_values::is_keyword_type(t.value);
    let d = aipsio::judge(t.next, name.next.at, known, 5);
    let fits = may_hold(t.value, deeper);
    let e = aipsio::judge(d, name.next.at, fits, 15);
    let v = aipsio::settle(t.value, e);
    FieldHead {
        number: v.value,
        start: name.start,
        len: name.len,
        next: e,
    }
}

// Whether the String IPosition begins 4 bytes from here, within the object.
fn is_iposition(s: &[u8], c: Cursor) -> bool
    ensures { result ≡ is_iposition s.now c }
{
    let d = aipsio::skip(c, 4);
    let e = aipsio::strings::name(s, d, b"IPosition");
    e.refused == 0
}

// A count and as many Ints, as Note 260 says.
fn skip_counted(s: &[u8], c: Cursor) -> Cursor
    ensures { result ≡ counted_at s.now c }
{
    let n = aipsio::numbers::uint(s, c);
    aipsio::skip_each(n.next, n.value, 4)
}

// A shape: an IPosition object, as Casacore writes it, or a count and Ints.
fn skip_shape(s: &[u8], c: Cursor) -> Cursor
    ensures { result ≡ shape_in_desc_at s.now c }
{
    if is_iposition(s, c) {
        aipsio::objects::iposition(s, c)
    } else {
        skip_counted(s, c)
    }
}

// What a type that is no record's asks for: a shape, a TableDesc name, or nothing.
pub fn skip_specific(s: &[u8], c: Cursor, number: usize) -> Cursor
    ensures { result ≡ specific_at s.now c number }
{
    if keyword_values::is_array_type(number) {
        skip_shape(s, c)
    } else if number == TABLE {
        aipsio::strings::string(s, c, 0, 4096).next
    } else {
        c
    }
}

// The comment, which version 2 has.
pub fn skip_comment(s: &[u8], c: Cursor, version: usize) -> Cursor
    ensures { result ≡ comment_at s.now c version }
{
    if version == 2 {
        aipsio::strings::string(s, c, 0, 4096).next
    } else {
        c
    }
}

// What a field's type asks for in a description. For a record that is its own description, whose fields may hold records
// `deeper` less one levels deep: the walk calls itself on each field. It stops at the first refusal.
pub fn judge_type(s: &[u8], c: Cursor, number: usize, deeper: usize) -> Cursor
    ensures { result ≡ type_desc_at deeper s.now c number }
{
    if number != RECORD {
        return skip_specific(s, c, number);
    }
    if deeper == 0 {
        return c;
    }
    let o = aipsio::objects::open(s, c, b"RecordDesc", 1, 2);
    let n = aipsio::numbers::number(s, o.next, Width::Four, 0, 2147483647);
    let mut d = n.next;
    for _i in 0..n.value {
        if d.refused != 0 {
            break;
        }
        let f = read_head(s, d, deeper - 1);
        let e = judge_type(s, f.next, f.number, deeper - 1);
        d = skip_comment(s, e, o.value);
    }
    aipsio::objects::close(d, c)
}
