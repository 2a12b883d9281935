// The column descriptions of a table (RULES.md 4.4; Note 260, 3.1.1: ColumnDesc).
ghost use Rattle.std.specs.Prelude.{◌≡◌, ◌≤◌, length};
ghost use Rattle.std.specs.List.{list_any};
ghost use Rattle.bytes_at.specs.Bytes.{same_bytes};
ghost use Rattle.table_rules.specs.ColumnDesc.{column_type_at, column_head_at, column_rest_at, no_column, name_in, columns_at};

use aipsio_rules::Cursor;
use table_rules::data_type::DataType;
use table_rules::{Column, ColumnHead, ColumnRead, Columns, TypeRead};

// The column type string: 5 where it is none of a column's types.
fn read_type(s: &[u8], c: Cursor) -> TypeRead
    ensures { result ≡ column_type_at s.now c }
{
    let t = aipsio::strings::string(s, c, 0, 4096);
    let k = crate::types::column_type(bytes_at::part(s, t.start, t.len));
    let d = aipsio::judge(t.next, c.at, k.datatype.is_some(), 5);
    TypeRead {
        array: k.array,
        datatype: k.datatype.unwrap_or(DataType::BOOL),
        next: d,
    }
}

// Version, type, version and name.
fn read_head(s: &[u8], c: Cursor) -> ColumnHead
    ensures value { result ≡ column_head_at s.now c }
    ensures bounded { result.len ≤ 64 }
{
    let v = aipsio::numbers::version(s, c, 1, 1);
    let t = read_type(s, v.next);
    let w = aipsio::numbers::version(s, t.next, 1, 1);
    let name = aipsio::strings::string(s, w.next, 1, 64);
    ColumnHead {
        array: t.array,
        datatype: t.datatype,
        start: name.start,
        len: name.len,
        from: w.next.at,
        next: name.next,
    }
}

// The rest of a ColumnDesc, from the cursor past its name.
fn read_column(s: &[u8], head: ColumnHead, c: Cursor) -> ColumnRead
    requires { head.len ≤ 64 }
    ensures { result ≡ column_rest_at s.now head c }
{
    let size = head.datatype.element_bits();
    let notes = crate::layout::skip_notes(s, c);
    let layout = crate::layout::read_layout(s, notes, head.array, head.datatype.number as usize);
    let maximum = crate::layout::read_tail(s, layout.next, head.array, size);
    let bits = crate::types::cell_bits(
        head.datatype,
        head.array,
        layout.options,
        layout.elements,
        maximum.value,
    );
    ColumnRead {
        column: Column {
            start: head.start,
            len: head.len,
            datatype: head.datatype,
            array: head.array,
            options: layout.options as u8,
            elements: layout.elements as u32,
            maximum: maximum.value as u32,
            bits: bits as u32,
        },
        next: maximum.next,
    }
}

// What `Column::NONE` is, in a clause: a constant has none.
#[tactic(auto, unfolding(table_rules::specs::ColumnDesc::no_column))]
pub fn no_column() -> Column
    ensures { result ≡ no_column }
{
    Column::NONE
}

// Whether one of the columns has the name.
fn is_taken(s: &[u8], columns: &[Column], name: &[u8]) -> bool
    ensures { result ≡ list_any (λ c. same_bytes (name_in s.now c) name.now) columns.now }
{
    columns
        .iter()
        .any(|c| bytes_at::is_at(s, c.start, c.len, name))
}

// n columns from the cursor. A name that an earlier column has: 6.
// `n ≤ 64` is the bound of a count alone: a type for it would say no more than the clause.
#[inline(never)] // as `table::describe` says
pub fn read_columns(s: &[u8], c: Cursor, n: usize) -> Columns
    requires { n ≤ 64 }
    ensures { result ≡ columns_at s.now c n }
{
    let mut columns = [Column::NONE; 64];
    let mut next = c;
    // By index: the columns before i are lent to `is_taken`.
    for i in 0..n {
        let head = read_head(s, next);
        let name = bytes_at::part(s, head.start, head.len);
        let taken = is_taken(s, &columns[..i], name);
        let d = aipsio::judge(head.next, head.from, !taken, 6);
        let read = read_column(s, head, d);
        columns[i] = read.column;
        next = read.next;
    }
    Columns { columns, next }
}
