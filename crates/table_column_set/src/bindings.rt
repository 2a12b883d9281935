// The binding of a table's columns to its data managers (RULES.md 4.9; Note 260, 3.1.2: ColumnInfo, DMInfo).
ghost use Rattle.std.specs.Prelude.{◌≡◌, true, get_or, length, ◌≤◌, ℕ};
ghost use Rattle.bytes_at.specs.Number.{number_in};
ghost use Rattle.table_rules.specs.ColumnSet.{is_object, lists_in, ssm_at, ism_at, after_object, info_in, info_at, infos_at, no_binding, binding_of, bindings_at};

use aipsio_rules::{Cursor, Text};
use table_rules::{Binding, Info, InfoRead, Infos, Kind, Manager, Owner};

// DMInfo is an object where it begins with the mark.
fn is_object(s: &[u8], t: Text) -> bool
    ensures { result ≡ is_object s.now t }
{
    4 <= t.len && bytes_at::uint::<4>(s, t.start, true) == 0xbebebebe
}

// The old form: the set numbers of n columns, then their offsets.
// `n ≤ 64`, here and below, is the bound of a count alone: a type for it would say no more than the clause.
fn lists_in(c: Cursor, t: Text, n: usize) -> InfoRead
    requires { n ≤ 64 }
    ensures { result ≡ lists_in c t n }
{
    let d = aipsio::judge(t.next, c.at, t.len == 8 * n, 7);
    InfoRead {
        info: Some(Info {
            sets: t.start,
            offsets: t.next.at.saturating_sub(4 * n),
        }),
        next: d,
    }
}

// The object SSM: a name, the offsets of n columns, their set numbers.
fn read_ssm(s: &[u8], c: Cursor, n: usize) -> InfoRead
    ensures { result ≡ ssm_at s.now c n }
{
    let m = aipsio::numbers::mark(s, c);
    let o = aipsio::objects::open(s, m, b"SSM", 2, 2);
    let name = aipsio::strings::string(s, o.next, 0, 4096);
    let offsets = aipsio::objects::block(s, name.next, n);
    let sets = aipsio::objects::block(s, offsets.next, n);
    let d = aipsio::objects::close(sets.next, m);
    InfoRead {
        info: Some(Info {
            sets: sets.value,
            offsets: offsets.value,
        }),
        next: d,
    }
}

// The object ISM: a name.
fn read_ism(s: &[u8], c: Cursor) -> InfoRead
    ensures { result ≡ ism_at s.now c }
{
    let m = aipsio::numbers::mark(s, c);
    let o = aipsio::objects::open(s, m, b"ISM", 3, 3);
    let name = aipsio::strings::string(s, o.next, 0, 4096);
    InfoRead {
        info: None,
        next: aipsio::objects::close(name.next, m),
    }
}

// Out of DMInfo, whose length stands at the cursor, after the object in it.
fn after_object(c: Cursor, o: InfoRead) -> InfoRead
    ensures { result ≡ after_object c o }
{
    InfoRead {
        info: o.info,
        next: aipsio::objects::close(o.next, c),
    }
}

// Either form, by the manager's kind.
fn read_form(s: &[u8], c: Cursor, t: Text, kind: Kind, n: usize) -> InfoRead
    requires { n ≤ 64 }
    ensures { result ≡ info_in s.now c t kind n }
{
    match kind {
        Kind::Other => InfoRead {
            info: None,
            next: t.next,
        },
        Kind::Standard if is_object(s, t) => {
            after_object(c, read_ssm(s, aipsio::strings::container(t), n))
        }
        Kind::Incremental if is_object(s, t) => {
            after_object(c, read_ism(s, aipsio::strings::container(t)))
        }
        Kind::Standard | Kind::Incremental => lists_in(c, t, n),
    }
}

// DMInfo of a manager to which n columns are bound.
fn read_info(s: &[u8], c: Cursor, kind: Kind, n: usize) -> InfoRead
    requires { n ≤ 64 }
    ensures { result ≡ info_at s.now c kind n }
{
    let t = aipsio::strings::any_string(s, c);
    read_form(s, c, t, kind, n)
}

// DMInfo of the managers.
// The counts go as the array that `Owners` holds, which is promised to be at most 64 at every place.
#[inline(never)] // as `table::describe` says
pub fn read_infos(s: &[u8], c: Cursor, managers: &[Manager], counts: [usize; 16]) -> Infos
    requires { (length managers.now ≤ 16) × ((k : ℕ) → get_or counts k 0 ≤ 64) }
    ensures { result ≡ infos_at s.now c managers.now counts (length managers.now) }
{
    let mut infos = [None; 16];
    let mut next = c;
    for (j, manager) in managers.iter().enumerate() {
        let one = read_info(s, next, manager.kind, counts[j]);
        infos[j] = one.info;
        next = one.next;
    }
    Infos { infos, next }
}

// No binding: zeros.
// What `Binding::NONE` is, in a clause: a constant has none.
#[tactic(auto, unfolding(table_rules::specs::ColumnSet::no_binding))]
pub fn no_binding() -> Binding
    ensures { result ≡ no_binding }
{
    Binding::NONE
}

// Number k of those that stand from a place on.
fn number_in(s: &[u8], at: usize, k: u32) -> u32
    ensures { result ≡ number_in true 4 s.now at k }
{
    let before = k as usize * 4;
    let run = bytes_at::part(s, at, before + 4);
    bytes_at::uint::<4>(run, before, true) as u32
}

// What DMInfo tells of a column.
#[tactic(auto, unfolding(table_rules::specs::ColumnSet::binding_of))]
fn read_binding(s: &[u8], owner: Owner, info: Option<Info>) -> Binding
    ensures { result ≡ binding_of s.now owner info }
{
    match info {
        Some(info) => Binding {
            sequence: owner.sequence,
            set: number_in(s, info.sets, owner.rank) as usize,
            offset: number_in(s, info.offsets, owner.rank),
        },
        None => Binding {
            sequence: owner.sequence,
            ..Binding::NONE
        },
    }
}

// The bindings of the columns.
#[inline(never)] // as `table::describe` says
pub fn bind(s: &[u8], owners: &[Owner], infos: &[Option<Info>]) -> [Binding; 64]
    requires { length owners.now ≤ 64 }
    ensures { result ≡ bindings_at s.now owners.now infos.now (length owners.now) }
{
    let mut bindings = [Binding::NONE; 64];
    for (i, owner) in owners.iter().enumerate() {
        let info = infos.get(owner.manager as usize).copied().flatten();
        bindings[i] = read_binding(s, *owner, info);
    }
    bindings
}
