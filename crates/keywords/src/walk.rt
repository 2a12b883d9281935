// A TableRecord (RULES.md 4.15; Note 260, section 2.4), walked with two places, one in its description and one in its values, and
// with a third in the path that says what is asked.
ghost use Rattle.std.specs.Prelude.{◌≡◌};
ghost use Rattle.keyword_rules.specs.TableRecord.{whole_at, held_at, left_at, is_ended, is_sought, field_found, found_after, walk_at};

use aipsio_rules::Cursor;
use keyword_rules::{Field, FieldHead, Held, RECORD, Sought, Standing, Walked};

// A TableRecord up to its values: its header, its description, in which records may be held `deeper` levels deep, and its type.
// Header and count of a RecordDesc are two lines here and in `enter`: one function would give both cursors, since `pass` takes the first.
pub fn enter_whole(s: &[u8], c: Cursor, past: Cursor, deeper: usize) -> Held
    ensures { result ≡ whole_at s.now c past deeper }
{
    let t = aipsio::objects::open(s, c, b"TableRecord", 1, 1);
    let e = keyword_desc::judge_type(s, t.next, RECORD, deeper);
    let kind = aipsio::numbers::uint(s, e);
    let o = aipsio::objects::open(s, t.next, b"RecordDesc", 1, 2);
    let n = aipsio::numbers::uint(s, o.next);
    Held {
        count: n.value,
        version: o.value,
        desc: n.next,
        values: kind.next,
        outer: Some(c),
        past,
    }
}

// A value of a type number whose description goes on at c, itself at v: past it, if it is no record; at its fields if it is one.
// A record with an empty description has a whole TableRecord as its value.
fn enter(s: &[u8], c: Cursor, v: Cursor, number: usize, deeper: usize) -> Held
    ensures { result ≡ held_at s.now c v number deeper }
{
    if number != RECORD {
        let past = keyword_desc::skip_specific(s, c, number);
        let values = keyword_values::skip_plain(s, v, number);
        return Held {
            count: 0,
            version: 0,
            desc: c,
            values,
            outer: None,
            past,
        };
    }
    let o = aipsio::objects::open(s, c, b"RecordDesc", 1, 2);
    let n = aipsio::numbers::uint(s, o.next);
    let past = aipsio::objects::pass(o.next, c);
    if n.value == 0 {
        return enter_whole(s, v, past, deeper);
    }
    Held {
        count: n.value,
        version: o.value,
        desc: n.next,
        values: v,
        outer: None,
        past,
    }
}

// Out of a value whose last field is read: a whole TableRecord has no bytes left over, else 7 at its header.
fn leave(v: Cursor, b: Held) -> Cursor
    ensures { result ≡ left_at v b }
{
    match b.outer {
        Some(outer) => aipsio::objects::close(v, outer),
        None => v,
    }
}

// Whether the path ends here.
fn is_ended(p: Cursor) -> bool
    ensures { result ≡ is_ended p }
{
    p.refused == 0 && p.at == p.end
}

// Whether field i of the record where the path stands at p, and behind the field's name at q, is what is asked.
fn is_sought(sought: Sought, p: Cursor, q: Cursor, i: usize) -> bool
    ensures { result ≡ is_sought sought p q i }
{
    match sought {
        Sought::Value => is_ended(q),
        Sought::Field(n) => is_ended(p) && i == n,
    }
}

// The field whose value stands between two places.
fn field_found(f: FieldHead, from: Cursor, to: Cursor) -> Field
    ensures { result ≡ field_found f from to }
{
    Field {
        name: f.start,
        name_len: f.len,
        number: f.number,
        start: from.at,
        len: to.at.saturating_sub(from.at),
    }
}

// The fields of a value, one after another, up to the first refusal: each field's value is walked by a call of the walk itself, with
// one level less. The first field with the name that is looked for takes the rest of the path along.
// Bytes and path are parameters of their own: in a struct the definitions would speak of lent slices, in place of lists of bytes.
pub fn walk(
    s: &[u8],
    path: &[u8],
    sought: Sought,
    b: Held,
    p: Cursor,
    found: Option<Field>,
    deeper: usize,
) -> Walked
    ensures { result ≡ walk_at deeper s.now path.now sought b p found }
{
    if deeper == 0 {
        return Walked {
            values: b.values,
            found,
        };
    }
    let mut w = Standing {
        desc: b.desc,
        values: b.values,
        path: p,
        found,
    };
    for i in 0..b.count {
        if w.values.refused != 0 {
            break;
        }
        let f = keyword_desc::read_head(s, w.desc, deeper - 1);
        let q = aipsio::strings::name(path, w.path, bytes_at::part(s, f.start, f.len));
        let inner = enter(s, f.next, w.values, f.number, deeper - 1);
        let x = walk(s, path, sought, inner, q, w.found, deeper - 1);
        let asked = is_sought(sought, w.path, q, i);
        let field = field_found(f, w.values, x.values);
        w = Standing {
            desc: keyword_desc::skip_comment(s, inner.past, b.version),
            values: x.values,
            path: aipsio::judge(w.path, w.path.at, q.refused != 0, 16),
            found: if asked { Some(field) } else { x.found },
        };
    }
    Walked {
        values: leave(w.values, b),
        found: w.found,
    }
}
