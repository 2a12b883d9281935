// table.dat (RULES.md 4; Note 260, 3.1): Description and Column by name.
#![tactic(auto)]

pub mod names;

ghost use Rattle.std.specs.Prelude.{◌≡◌, ◌≤◌};
ghost use Rattle.table_rules.specs.Table.{table_head_at, table_notes_at, table_desc_head_at, refused_table, described_as};

use aipsio_rules::Cursor;
use bytes_at::{Refusal, Width};
use table_rules::{Binding, Column, Description, Manager, TableDescHead, TableHead};

// The count in Table's header, which is not judged here, endianness and table type.
pub fn read_head(s: &[u8], c: Cursor) -> TableHead
    ensures { result ≡ table_head_at s.now c }
{
    let rows = aipsio::numbers::uint(s, c);
    let endian = aipsio::numbers::code(s, rows.next, 0, 1);
    let kind = aipsio::strings::name(s, endian.next, b"PlainTable");
    TableHead {
        rows: rows.value,
        big: endian.value == 1,
        next: kind,
    }
}

// The first fields of TableDesc: name, version and comment, three Strings as a column's notes are.
#[inline(always)]
#[tactic(auto, unfolding(table_rules::specs::Table::table_notes_at, table_rules::specs::ColumnDesc::notes_at))]
pub fn skip_notes(s: &[u8], c: Cursor) -> Cursor
    ensures { result ≡ table_notes_at s.now c }
{
    table_column_desc::layout::skip_notes(s, c)
}

// The fields of TableDesc before its columns: name, version, comment, keywords, private keywords, and the column count.
fn read_desc_head(s: &[u8], c: Cursor) -> TableDescHead
    ensures value { result ≡ table_desc_head_at s.now c }
    ensures bounded { result.count ≤ 64 }
{
    let notes = skip_notes(s, c);
    let keywords = aipsio::objects::record(s, notes);
    let private = aipsio::objects::record(s, keywords);
    let n = aipsio::numbers::number(s, private, Width::Four, 1, 64);
    TableDescHead {
        count: n.value,
        next: n.next,
    }
}

// A refusal, and zeros.
#[tactic(auto, unfolding(table_rules::specs::Table::refused_table, table_rules::specs::ColumnDesc::no_column, table_rules::specs::ColumnSet::no_binding, table_rules::specs::ColumnSet::no_manager))]
fn refuse(why: Refusal) -> Description
    ensures { result ≡ refused_table why }
{
    Description {
        refused: why,
        rows: 0,
        column_count: 0,
        manager_count: 0,
        columns: [Column::NONE; 64],
        bindings: [Binding::NONE; 64],
        managers: [Manager::NONE; 16],
        big: false,
    }
}

// What the bytes of table.dat describe.
// What reads its lists (`read_columns`, `read_managers`, `read_owners`, `read_infos`, `bind`) is not put in place here: the lists would lie on
// this function's stack twice and more, and be copied as often. Nor is it put in place itself, where a description is asked for.
#[inline(never)]
pub fn describe(s: &[u8]) -> Description
    ensures value { result ≡ described_as s.now }
    ensures bounded { (result.column_count ≤ 64) × (result.manager_count ≤ 16) }
{
    let whole = Cursor {
        at: 0,
        end: s.len(),
        big: true,
        refused: 0,
    };
    let c = aipsio::judge(whole, 65536, s.len() <= 65536, 4);
    let m = aipsio::numbers::mark(s, c);
    let t = aipsio::objects::open(s, m, b"Table", 2, 2);
    let head = read_head(s, t.next);
    let o = aipsio::objects::open(s, head.next, b"TableDesc", 2, 2);
    let n = read_desc_head(s, o.next);
    let cs = table_column_desc::columns::read_columns(s, n.next, n.count);
    let columns = &cs.columns[..n.count];
    let e = aipsio::objects::close(cs.next, head.next);
    let set = table_column_set::data_managers::read_head(s, e, head.rows);
    let ms = table_column_set::data_managers::read_managers(s, set.next, set.count, set.highest);
    let managers = &ms.managers[..set.count];
    let os = table_column_set::info::read_owners(s, ms.next, columns, managers);
    let is = table_column_set::bindings::read_infos(s, os.next, managers, os.counts);
    let d = aipsio::objects::close(is.next, m);
    if d.refused != 0 {
        return refuse(aipsio::refusal(d));
    }
    Description {
        refused: Refusal { number: 0, byte: 0 },
        rows: set.rows,
        big: head.big,
        column_count: n.count,
        manager_count: set.count,
        columns: cs.columns,
        bindings: table_column_set::bindings::bind(s, &os.owners[..n.count], &is.infos),
        managers: ms.managers,
    }
}
