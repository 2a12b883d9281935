// Keywords of a table and of its columns (RULES.md 4.16 and 4.17): the questions Keyword and Field.
#![tactic(auto)]

pub mod walk;

ghost use Rattle.std.specs.Prelude.{◌≡◌, ◌+◌, List, ℕ, IfOk, IfErr};
ghost use Rattle.keyword_rules.specs.declared.Sought.{Sought};
ghost use Rattle.keyword_rules.specs.Keywords.{between, table_keywords, column_keywords, walked_at, search_at, keyword_search, keyword_of, keyword_part, part_start, field_of, SearchSays, KeywordThere, FieldThere};

use aipsio_rules::Cursor;
use bytes_at::{Refusal, Width};
use keyword_rules::{Field, Keyword, Scope, Sought, Walked};
use table_rules::Column;

// The bytes from one place to another, big endian.
fn between(at: usize, end: usize) -> Cursor
    ensures { result ≡ between at end }
{
    Cursor {
        at,
        end,
        big: true,
        refused: 0,
    }
}

// Where the table's keyword set begins.
fn table_keywords(s: &[u8]) -> usize
    ensures { result ≡ table_keywords s.now }
{
    let whole = between(0, s.len());
    let c = aipsio::judge(whole, 65536, s.len() <= 65536, 4);
    let m = aipsio::numbers::mark(s, c);
    let t = aipsio::objects::open(s, m, b"Table", 2, 2);
    let head = table::read_head(s, t.next);
    let o = aipsio::objects::open(s, head.next, b"TableDesc", 2, 2);
    let notes = table::skip_notes(s, o.next);
    notes.at
}

// Where a column's keyword set begins: behind its name, its notes, its layout and the string maximum.
fn column_keywords(s: &[u8], column: Column) -> usize
    ensures { result ≡ column_keywords s.now column }
{
    let c = between(column.start, s.len());
    let number = column.datatype.number as usize;
    let name = aipsio::skip(c, column.len);
    let notes = table_column_desc::layout::skip_notes(s, name);
    let layout = table_column_desc::layout::read_layout(s, notes, column.array, number);
    let maximum = aipsio::numbers::number(s, layout.next, Width::Four, 0, 65536);
    maximum.next.at
}

// A walk through the keyword set that begins at a place.
fn walk_set(s: &[u8], path: &[u8], sought: Sought, start: usize) -> Walked
    ensures { result ≡ walked_at s.now path.now sought start }
{
    let c = between(start, s.len());
    let p = between(0, path.len());
    let b = walk::enter_whole(s, c, c, 8);
    walk::walk(s, path, sought, b, p, None, 8)
}

// What the path leads to in the keyword set that begins at a place.
// Not put in place, so that the walk is off the stack while `set_start` has the description on it.
#[inline(never)]
fn search_set(s: &[u8], path: &[u8], sought: Sought, start: usize) -> Result<Field, Refusal>
    ensures { result ≡ search_at s.now path.now sought start }
{
    let w = walk_set(s, path, sought, start);
    if w.values.refused != 0 {
        return Err(aipsio::refusal(w.values));
    }
    w.found.ok_or(Refusal {
        number: 16,
        byte: 0,
    })
}

// Where the keyword set of the table or of a column begins: the table's refusals, then 8.
// Not put in place: the description would stay on the stack while the set is walked.
#[inline(never)]
fn set_start(s: &[u8], scope: Scope) -> Result<usize, Refusal>
    ensures there { IfOk result (λ start. (path : List ℕ) → (sought : Sought) → search_at s.now path sought start ≡ keyword_search s.now scope path sought) }
    ensures refused { IfErr result (λ why. (path : List ℕ) → (sought : Sought) → Err why ≡ keyword_search s.now scope path sought) }
{
    let d = table::describe(s);
    if d.refused.number != 0 {
        return Err(d.refused);
    }
    match scope {
        Scope::Table => Ok(table_keywords(s)),
        Scope::Column(k) if k < d.column_count => Ok(column_keywords(s, d.columns[k])),
        Scope::Column(_) => Err(Refusal { number: 8, byte: 0 }),
    }
}

// What the path leads to in the keyword set of the table or of a column: the table's refusals, 8, then the set's.
pub fn search(s: &[u8], scope: Scope, path: &[u8], sought: Sought) -> Result<Field, Refusal>
    ensures value { result ≡ keyword_search s.now scope path.now sought }
    ensures says { SearchSays s.now scope result }
{
    let start = set_start(s, scope)?;
    search_set(s, path, sought, start)
}

// Keyword: the type number and the place of the value that a path of AipsIO Strings names.
pub fn keyword(s: &[u8], scope: Scope, path: &[u8]) -> Result<Keyword, Refusal>
    ensures value { result ≡ keyword_of s.now scope path.now }
    ensures there { KeywordThere s.now scope result }
{
    let Field {
        number,
        start,
        len,
        ..
    } = search(s, scope, path, Sought::Value)?;
    Ok(Keyword { number, start, len })
}

// The part of table.dat that holds the value, all its bytes as stored; the empty part where it is refused.
pub fn keyword_part<'a>(s: &'a [u8], scope: Scope, path: &[u8]) -> &'a [u8]
    ensures { (result.now ≡ keyword_part s.now (keyword_search s.now scope path.now Sought.Value)) × (result.ref_ptr ≡ (s.entry.ref_ptr.0, s.entry.ref_ptr.1 + part_start (keyword_search s.now scope path.now Sought.Value))) }
{
    match search(s, scope, path, Sought::Value) {
        Ok(found) => &s[found.start..found.start + found.len],
        Err(_) => &s[..0],
    }
}

// Field: the name, the type number and the place of the value of the field with a number, in the record that a path names.
pub fn field(s: &[u8], scope: Scope, path: &[u8], n: usize) -> Result<Field, Refusal>
    ensures value { result ≡ field_of s.now scope path.now n }
    ensures there { FieldThere s.now scope result }
{
    search(s, scope, path, Sought::Field(n))
}
