// The values of keywords that hold no record (RULES.md 4.12 and 4.13; Note 260, sections 2 and 2.1): scalars, Strings, Table names and
// Array objects, passed over through a cursor.
#![tactic(auto)]

ghost use Rattle.std.specs.Prelude.{◌≡◌};
ghost use Rattle.keyword_rules.specs.Values.{is_array_type, element_type, is_keyword_type, is_array_name, array_name_at, array_opened, origin_at, length_into, lengths_at, strings_at, values_at, array_at, scalar_at, plain_at};

use aipsio_rules::{Cursor, Text, Value};
use table_rules::data_type::DataType;

// Whether a type number is an array's: 13 and 15 to 24 for types 0 and 2 to 11, then 30 for Int64.
pub fn is_array_type(number: usize) -> bool
    ensures { result ≡ is_array_type number }
{
    matches!(number, 13 | 15..=24 | 30)
}

// The type number of an array's elements: 0 to 11 for 13 to 24, and Int64's for 30.
// Type numbers are no enum: `element_type` and `is_array_type` (keyword_rules/specs/Values) judge every number, and C is told them.
fn element_type(number: usize) -> usize
    ensures { result ≡ element_type number }
{
    if number == 30 {
        29
    } else {
        number.saturating_sub(13)
    }
}

// Whether a type number is one that a keyword may have: a scalar's, an array's, Table (12) or Record (25).
#[tactic(auto, unfolding(keyword_rules::specs::Values::is_keyword_type))]
pub fn is_keyword_type(number: usize) -> bool
    ensures { result ≡ is_keyword_type number }
{
    number == keyword_rules::TABLE
        || number == keyword_rules::RECORD
        || is_array_type(number)
        || DataType::from_number(number).is_some()
}

// Whether a String is an Array object's name: Array, or Array with any text in angle brackets.
#[tactic(auto, unfolding(keyword_rules::specs::Values::is_array_name))]
fn is_array_name(s: &[u8], t: Text) -> bool
    ensures { result ≡ is_array_name s.now t }
{
    bytes_at::is_at(s, t.start, t.len, b"Array")
        || 7 <= t.len
            && bytes_at::is_at(s, t.start, 6, b"Array<")
            && bytes_at::uint::<1>(s, t.next.at.saturating_sub(1), true) == b'>' as usize
}

// An Array object's name, else 2.
fn array_name(s: &[u8], c: Cursor) -> Cursor
    ensures { result ≡ array_name_at s.now c }
{
    let t = aipsio::strings::any_string(s, c);
    let ok = is_array_name(s, t);
    aipsio::judge(t.next, c.at, ok, 2)
}

// An Array object's header: versions 1 to 3. Gives the version, and the cursor at the object's first field.
fn open_array(s: &[u8], c: Cursor) -> Value
    ensures { result ≡ array_opened s.now c }
{
    let len = aipsio::numbers::uint(s, c);
    let d = array_name(s, len.next);
    let v = aipsio::numbers::version(s, d, 1, 3);
    let e = aipsio::objects::enter(v.next, c, len.value);
    aipsio::settle(v.value, e)
}

// The origin, an Int for each of n axes, which versions 1 and 2 have.
fn skip_origin(c: Cursor, version: usize, n: usize) -> Cursor
    ensures { result ≡ origin_at c version n }
{
    if version < 3 {
        aipsio::skip_each(c, n, 4)
    } else {
        c
    }
}

// One axis more: an Int that is not negative, else 5. The product is counted to 2^32: no table.dat has room for as many elements.
fn add_length(s: &[u8], product: Value) -> Value
    ensures { result ≡ length_into s.now product }
{
    let axis = aipsio::numbers::code(s, product.next, 0, 2147483647);
    let more = product.value.saturating_mul(axis.value).min(4294967296);
    aipsio::settle(more, axis.next)
}

// The product of n axes, 0 where there are none. Stops at the first refusal: n may be any uInt.
fn read_lengths(s: &[u8], c: Cursor, n: usize) -> Value
    ensures { result ≡ lengths_at s.now c n }
{
    if n == 0 {
        return Value { value: 0, next: c };
    }
    let mut product = Value { value: 1, next: c };
    for _i in 0..n {
        if product.next.refused != 0 {
            return Value {
                value: 0,
                ..product
            };
        }
        product = add_length(s, product);
    }
    product
}

// n Strings. Stops at the first refusal.
fn skip_strings(s: &[u8], c: Cursor, n: usize) -> Cursor
    ensures { result ≡ strings_at s.now c n }
{
    let mut d = c;
    for _i in 0..n {
        if d.refused != 0 {
            break;
        }
        d = aipsio::strings::string(s, d, 0, 4096).next;
    }
    d
}

// n elements of a type. Bools are bits, in whole bytes.
fn skip_values(s: &[u8], c: Cursor, number: usize, n: usize) -> Cursor
    ensures { result ≡ values_at s.now c number n }
{
    let each = DataType::bits_of(number);
    let size = each / 8;
    if each == 1 {
        aipsio::skip_each(c, n.div_ceil(8), 1)
    } else if size == 0 {
        skip_strings(s, c, n)
    } else {
        aipsio::skip_each(c, n, size)
    }
}

// An Array object whose elements have a type number.
fn skip_array(s: &[u8], c: Cursor, number: usize) -> Cursor
    ensures { result ≡ array_at s.now c number }
{
    let o = open_array(s, c);
    let n = aipsio::numbers::uint(s, o.next);
    let d = skip_origin(n.next, o.value, n.value);
    let product = read_lengths(s, d, n.value);
    let e = skip_values(s, product.next, number, product.value);
    aipsio::objects::close(e, c)
}

// A scalar. A Bool is a byte, 0 or 1, else 5; what has no size of its own is a String: String, and a Table's name.
fn skip_scalar(s: &[u8], c: Cursor, number: usize) -> Cursor
    ensures { result ≡ scalar_at s.now c number }
{
    let each = DataType::bits_of(number);
    let size = each / 8;
    if each == 1 {
        aipsio::numbers::flag(s, c).next
    } else if size == 0 {
        aipsio::strings::string(s, c, 0, 4096).next
    } else {
        aipsio::skip(c, size)
    }
}

// A value that is no record.
pub fn skip_plain(s: &[u8], c: Cursor, number: usize) -> Cursor
    ensures { result ≡ plain_at s.now c number }
{
    if is_array_type(number) {
        skip_array(s, c, element_type(number))
    } else {
        skip_scalar(s, c, number)
    }
}
