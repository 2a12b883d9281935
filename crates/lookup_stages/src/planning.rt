// The parts of a question over a table and a data file (RULES.md 7.3 and 7.4): the column and the manager that it is
// about, and the fresh plan.
ghost use Rattle.std.specs.Prelude.{◌≡◌, ◌<◌, ◌≤◌, get_or};
ghost use Rattle.lookup_stages.specs.Stages.{target_by};
ghost use Rattle.lookup_rules.specs.Questions.{kind_with, is_incremental, is_held, target_of, if_standard, bits_in, plan_for};

use bytes_at::Refusal;
use lookup_rules::{FileChecked, Plan, Request, Target};
use table_rules::{Binding, Column, Description, Kind, Manager};

// Element k of a list, or `none` past its end: `get_or` of the definitions, in one clause.
fn element<T: Copy>(list: &[T], k: usize, none: T) -> T
    ensures { result ≡ get_or list.now k none }
{
    list.get(k).copied().unwrap_or(none)
}

// The kind of the manager with the sequence number; where none has it, none of the two.
// A list with a count, as a Description has its managers (no heap), and as `kind_with` takes them.
pub fn kind_with(managers: &[Manager; 16], count: usize, sequence: usize) -> Kind
    requires { count ≤ 16 }
    ensures { result ≡ kind_with managers.now count sequence }
{
    // A match: `map_or(Kind::Other, |m| m.kind)` was tried, and the proof did not close by itself or with the answers of the match.
    match managers[..count].iter().find(|m| m.number == sequence) {
        Some(m) => m.kind,
        None => Kind::Other,
    }
}

// `==` in the definitions' word: `target_of` names `is_incremental`.
pub fn is_incremental(kind: Kind) -> bool
    ensures { result ≡ is_incremental kind }
{
    kind == Kind::Incremental
}

// Whether a question can be asked of a manager of the kind; that of the row's own bucket is IncrementalStMan's.
pub fn is_held(kind: Kind, placed: bool, own: bool) -> bool
    ensures { result ≡ is_held kind placed own }
{
    match kind {
        Kind::Other => false,
        Kind::Standard => !own,
        Kind::Incremental => placed,
    }
}

// The column and the manager; 8 where there is none. Column and binding are those at the question's position.
// A list with a count, and the parts of a description: `target_by` (specs/Stages) takes them so.
pub fn find_target(
    refused: Refusal,
    columns: usize,
    managers: &[Manager; 16],
    count: usize,
    c: Column,
    b: Binding,
    r: Request,
) -> Target
    requires { count ≤ 16 }
    ensures { result ≡ target_by refused columns managers.now count c b r }
{
    let known = lookup_question::tests::is_column(r, columns);
    let r1 = lookup_question::tests::stage(refused, known, 8);
    let sequence = lookup_question::tests::sequence_for(r, b.sequence as usize);
    let kind = kind_with(managers, count, sequence);
    let placed = lookup_question::tests::is_placed(r, c.datatype.number as usize);
    let held = is_held(kind, placed, r.own);
    let r2 = lookup_question::tests::stage(r1, held, 8);
    let incremental = is_incremental(kind);
    Target {
        refused: r2,
        position: r.position,
        sequence,
        incremental,
        column: c,
        binding: b,
    }
}

// The same of a description, which is read where it lies.
pub fn target_in(d: &Description, r: Request) -> Target
    requires { d.now.manager_count ≤ 16 }
    ensures { result ≡ target_of d.now r }
{
    let k = r.position;
    let c = element(&d.columns, k, table_column_desc::columns::no_column());
    let b = element(&d.bindings, k, table_column_set::bindings::no_binding());
    find_target(
        d.refused,
        d.column_count,
        &d.managers,
        d.manager_count,
        c,
        b,
        r,
    )
}

// What a plan has of StandardStMan alone.
pub fn if_standard(incremental: bool, n: usize) -> usize
    ensures value { result ≡ if_standard incremental n }
    ensures bounded { result ≤ n }
{
    if incremental { 0 } else { n }
}

// The bits of a cell: whole bytes in IncrementalStMan.
pub fn bits_in(incremental: bool, bits: usize) -> usize
    requires { bits < 4294967296 }
    ensures value { result ≡ bits_in incremental bits }
    ensures bounded { result ≤ 4294967296 }
{
    if incremental {
        8 * bits.div_ceil(8)
    } else {
        bits
    }
}

// What the table and the file say of the column's cells now.
pub fn plan_for(g: Target, m: FileChecked) -> Plan
    ensures value { result ≡ plan_for g m }
    ensures bounded { (result.offset < 4294967296) × (result.bits ≤ 4294967296) }
{
    let bits = bits_in(g.incremental, g.column.bits as usize);
    let set = if_standard(g.incremental, g.binding.set);
    let offset = if_standard(g.incremental, g.binding.offset as usize);
    let per = if_standard(g.incremental, m.set.per);
    Plan {
        position: g.position,
        sequence: g.binding.sequence as usize,
        datatype: g.column.datatype.number as usize,
        elements: g.column.elements as usize,
        bits,
        set,
        offset,
        per,
        size: m.size,
    }
}
