// ColumnInfo: the data manager of each of a table's columns (RULES.md 4.8; Note 260, 3.1.2).
ghost use Rattle.std.specs.Prelude.{◌≡◌, ◌<◌, ℕ, ◌≤◌, get_or, length};
ghost use Rattle.table_rules.specs.ColumnSet.{sequence_at, own_shape_at, owners_at};

use aipsio_rules::Cursor;
use table_rules::{Column, Manager, Owner, Owners, Sequence};

// ColumnInfo up to the sequence number: version 2, original name, version 1.
fn read_sequence(s: &[u8], c: Cursor) -> Sequence
    ensures value { result ≡ sequence_at s.now c }
    ensures bounded { result.value < 4294967296 }
{
    let v = aipsio::numbers::version(s, c, 2, 2);
    let name = aipsio::strings::string(s, v.next, 0, 4096);
    let w = aipsio::numbers::version(s, name.next, 1, 1);
    let q = aipsio::numbers::uint(s, w.next);
    Sequence {
        value: q.value,
        from: w.next.at,
        next: q.next,
    }
}

// The rest of an array's ColumnInfo: whether it has a shape of its own, and that shape.
#[tactic(auto, unfolding(table_rules::specs::ColumnSet::own_shape_at))]
fn skip_own_shape(s: &[u8], c: Cursor, array: bool) -> Cursor
    ensures { result ≡ own_shape_at s.now c array }
{
    if !array {
        return c;
    }
    let own = aipsio::numbers::flag(s, c);
    if own.value == 0 {
        own.next
    } else {
        aipsio::objects::iposition(s, own.next)
    }
}

// ColumnInfo of the columns. A sequence number that none of the managers has: 6.
#[inline(never)] // as `table::describe` says
pub fn read_owners(s: &[u8], c: Cursor, columns: &[Column], managers: &[Manager]) -> Owners
    requires { (length columns.now ≤ 64) × (length managers.now ≤ 16) }
    ensures value { result ≡ owners_at s.now c columns.now (length columns.now) managers.now (length managers.now) }
    ensures bounded { (k : ℕ) → get_or result.counts k 0 ≤ 64 }
{
    let mut owners = [Owner::NONE; 64];
    let mut counts = [0usize; 16];
    let mut next = c;
    for (i, column) in columns.iter().enumerate() {
        let q = read_sequence(s, next);
        let k = crate::data_managers::first_number(managers, q.value);
        let d = aipsio::judge(q.next, q.from, k < managers.len(), 6);
        let rank = counts.get(k).copied().unwrap_or(0);
        owners[i] = Owner {
            sequence: q.value as u32,
            manager: k as u32,
            rank: rank as u32,
        };
        next = skip_own_shape(s, d, column.array);
        if k < counts.len() {
            counts[k] = rank + 1;
        }
    }
    Owners {
        owners,
        next,
        counts,
    }
}
