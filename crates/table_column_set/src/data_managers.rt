// The beginning of ColumnSet and the data managers of a table (RULES.md 4.6 and 4.7; Note 260, 3.1.2: ColumnSet).
ghost use Rattle.std.specs.Prelude.{◌≡◌, ◌≤◌, ◌||◌, eqb, length};
ghost use Rattle.table_rules.specs.ColumnSet.{kind_of, column_set_head_at, first_number, is_new, no_manager, managers_at};

use aipsio_rules::Cursor;
use bytes_at::Width;
use table_rules::{ColumnSetHead, Kind, Manager, Managers};

#[tactic(auto, unfolding(table_rules::specs::ColumnSet::kind_of))]
pub fn kind_of(name: &[u8]) -> Kind
    ensures { result ≡ kind_of name.now }
{
    if bytes_at::same(name, b"StandardStMan") {
        Kind::Standard
    } else if bytes_at::same(name, b"IncrementalStMan") {
        Kind::Incremental
    } else {
        Kind::Other
    }
}

// Whether a row count is one with that of Table's header, which an Int64 is not compared with.
fn counts_agree(wide: bool, own: usize, rows: usize) -> bool
    ensures { result ≡ wide || eqb own rows }
{
    wide || own == rows
}

// Version -2 or -3, the row count, the highest sequence number, and the number of managers. In version -2 the row count is the one
// given, that of Table's header, else 6; in version -3 it is an Int64.
pub fn read_head(s: &[u8], c: Cursor, rows: usize) -> ColumnSetHead
    ensures value { result ≡ column_set_head_at s.now c rows }
    ensures bounded { result.count ≤ 16 }
{
    let v = aipsio::numbers::version(s, c, 4294967293, 4294967294);
    let wide = v.value == 4294967293;
    let width = Width::of_int(wide);
    let r = aipsio::numbers::number(s, v.next, width, 0, 4611686018427387904);
    let ok = counts_agree(wide, r.value, rows);
    let k = aipsio::judge(r.next, v.next.at, ok, 6);
    let highest = aipsio::numbers::uint(s, k);
    let n = aipsio::numbers::number(s, highest.next, Width::Four, 1, 16);
    ColumnSetHead {
        rows: r.value,
        highest: highest.value,
        count: n.value,
        next: n.next,
    }
}

// The position of the first manager with a sequence number, or how many managers there are.
pub fn first_number(managers: &[Manager], number: usize) -> usize
    ensures value { result ≡ first_number managers.now (length managers.now) number }
    ensures bounded { result ≤ length managers.now }
{
    managers
        .iter()
        .position(|m| m.number == number)
        .unwrap_or(managers.len())
}

// Whether a manager's number is its own, and not above the highest.
fn is_new(first: usize, i: usize, number: usize, highest: usize) -> bool
    ensures { result ≡ is_new first i number highest }
{
    first == i && number <= highest
}

// No manager: zeros.
// What `Manager::NONE` is, in a clause: a constant has none.
#[tactic(auto, unfolding(table_rules::specs::ColumnSet::no_manager))]
pub fn no_manager() -> Manager
    ensures { result ≡ no_manager }
{
    Manager::NONE
}

// n managers. A sequence number that an earlier manager has, or above the highest: 6.
// `n ≤ 16` is the bound of a count alone: a type for it would say no more than the clause.
#[inline(never)] // as `table::describe` says
pub fn read_managers(s: &[u8], c: Cursor, n: usize, highest: usize) -> Managers
    requires { n ≤ 16 }
    ensures { result ≡ managers_at s.now c n highest }
{
    let mut managers = [Manager::NONE; 16];
    let mut next = c;
    // By index: the managers before i are lent to `first_number`.
    for i in 0..n {
        let name = aipsio::strings::string(s, next, 0, 4096);
        let number = aipsio::numbers::uint(s, name.next);
        let k = first_number(&managers[..i], number.value);
        let ok = is_new(k, i, number.value, highest);
        next = aipsio::judge(number.next, name.next.at, ok, 6);
        managers[i] = Manager {
            start: name.start,
            number: number.value,
            len: name.len as u16,
            kind: kind_of(bytes_at::part(s, name.start, name.len)),
        };
    }
    Managers { managers, next }
}
