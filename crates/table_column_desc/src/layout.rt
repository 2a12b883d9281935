// The fields of a column's description after its name: notes, data type number, options, dimensionality, shape, string maximum and
// default value (RULES.md 4.4; Note 260, 3.1.1: ColumnDesc).
ghost use Rattle.std.specs.Prelude.{◌≡◌, ◌≤◌};
ghost use Rattle.table_rules.specs.ColumnDesc.{notes_at, options_fit, options_at, dimensions_fit, dimensions_at, elements_at, layout_at, default_at, tail_at};

use aipsio_rules::{Cursor, Value};
use bytes_at::Width;
use table_rules::Layout;

// Comment, data manager type and data manager group.
#[inline(always)]
pub fn skip_notes(s: &[u8], c: Cursor) -> Cursor
    ensures { result ≡ notes_at s.now c }
{
    let comment = aipsio::strings::string(s, c, 0, 4096);
    let manager = aipsio::strings::string(s, comment.next, 0, 4096);
    let group = aipsio::strings::string(s, manager.next, 0, 4096);
    group.next
}

// For arrays, direct (1) needs a fixed shape (4).
fn options_fit(array: bool, options: usize) -> bool
    ensures { result ≡ options_fit array options }
{
    !array || options % 2 != 1 || 4 <= options
}

// Options 0 to 7, else 5.
fn read_options(s: &[u8], c: Cursor, array: bool) -> Value
    ensures value { result ≡ options_at s.now c array }
    ensures bounded { result.value ≤ 7 }
{
    let o = aipsio::numbers::code(s, c, 0, 7);
    let ok = options_fit(array, o.value);
    let d = aipsio::judge(o.next, c.at, ok, 5);
    aipsio::settle(o.value, d)
}

// A scalar has dimensionality 0 or -1; an array's is not judged here.
fn dimensions_fit(array: bool, dimensions: usize) -> bool
    ensures { result ≡ dimensions_fit array dimensions }
{
    array || dimensions == 0 || dimensions == 4294967295
}

// The dimensionality, else 5.
fn read_dimensions(s: &[u8], c: Cursor, array: bool) -> Value
    ensures { result ≡ dimensions_at s.now c array }
{
    let n = aipsio::numbers::uint(s, c);
    let ok = dimensions_fit(array, n.value);
    let d = aipsio::judge(n.next, c.at, ok, 5);
    aipsio::settle(n.value, d)
}

// The element count, and the cursor past the IPosition, which an array always has and a scalar never.
#[tactic(auto, unfolding(table_rules::specs::ColumnDesc::elements_at))]
fn read_elements(s: &[u8], c: Cursor, array: bool, options: usize, dimensions: usize) -> Value
    ensures value { result ≡ elements_at s.now c array options dimensions }
    ensures bounded { result.value ≤ 1048576 }
{
    if !array {
        aipsio::settle(1, c)
    } else if 4 <= options {
        aipsio::objects::shape(s, c, dimensions)
    } else {
        aipsio::settle(0, aipsio::objects::iposition(s, c))
    }
}

// Data type number, which is T's (else 5), options, dimensionality and shape.
pub fn read_layout(s: &[u8], c: Cursor, array: bool, number: usize) -> Layout
    ensures value { result ≡ layout_at s.now c array number }
    ensures bounded { (result.options ≤ 7) × (result.elements ≤ 1048576) }
{
    let n = aipsio::numbers::code(s, c, number, number);
    let o = read_options(s, n.next, array);
    let d = read_dimensions(s, o.next, array);
    let e = read_elements(s, d.next, array, o.value, d.value);
    Layout {
        options: o.value,
        elements: e.value,
        next: e.next,
    }
}

// A scalar's default value by its type, or an array's unused Bool.
#[tactic(auto, unfolding(table_rules::specs::ColumnDesc::default_at))]
fn skip_default(s: &[u8], c: Cursor, array: bool, bits: usize) -> Cursor
    ensures { result ≡ default_at s.now c array bits }
{
    if array || bits == 1 {
        aipsio::numbers::flag(s, c).next
    } else if bits == 0 {
        aipsio::strings::string(s, c, 0, 4096).next
    } else {
        aipsio::skip(c, bits / 8)
    }
}

// String maximum, keywords, version and default value. Gives the maximum.
pub fn read_tail(s: &[u8], c: Cursor, array: bool, bits: usize) -> Value
    ensures value { result ≡ tail_at s.now c array bits }
    ensures bounded { result.value ≤ 65536 }
{
    let m = aipsio::numbers::number(s, c, Width::Four, 0, 65536);
    let keywords = aipsio::objects::record(s, m.next);
    let v = aipsio::numbers::version(s, keywords, 1, 1);
    let d = skip_default(s, v.next, array, bits);
    aipsio::settle(m.value, d)
}
