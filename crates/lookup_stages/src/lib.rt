// All stages of a question over a table and a data file, in their order (RULES.md 7.2).
#![tactic(auto)]

pub mod planning;

ghost use Rattle.std.specs.Prelude.{◌≡◌, ◌≤◌, ◌<◌, false, length};
ghost use Rattle.lookup_rules.specs.Questions.{stages_after, stages_of};
ghost use Rattle.table_rules.specs.Table.{described_as};
ghost use Rattle.standard_rules.specs.Check.{padded};
ghost use Rattle.standard_rules.specs.Header.{header_at};
ghost use Rattle.standard_rules.specs.Index.{index_text_of};

use lookup_rules::{FileChecked, Request, Staged, Target};
use standard_rules::Set;

// The stages after the check of the manager's file.
fn finish(r: Request, g: Target, m: FileChecked, rows: usize, big: bool) -> Staged
    ensures value { result ≡ stages_after r g m rows big }
    ensures bounded { (result.plan.offset < 4294967296) × (result.plan.bits ≤ 4294967296) }
{
    let p = crate::planning::plan_for(g, m);
    let fresh = lookup_question::tests::fresh(r, p);
    let r1 = lookup_question::tests::stage(m.refused, fresh, 12);
    let below = lookup_question::tests::below(r, rows);
    let r2 = lookup_question::tests::stage(r1, below, 9);
    let seen = lookup_question::tests::seen(r, g.incremental, p.datatype);
    let r3 = lookup_question::tests::stage(r2, seen, 14);
    Staged {
        refused: r3,
        plan: p,
        sequence: g.sequence,
        column: g.column,
        incremental: g.incremental,
        big,
        set: m.set,
        first: m.first,
    }
}

// All stages in their order. The room holds the index text of a StandardStMan file where none refuses; else it may hold
// anything.
pub fn stages(table: &[u8], file: &[u8], r: Request, room: &mut [u8]) -> Staged
    ensures value { (result ≡ stages_of table.now file.now r (length room.old)) × (result.refused.number ≡ 0 → result.incremental ≡ false → room.new ≡ padded (length room.old) (index_text_of file.now (header_at file.now (described_as table.now).big))) }
    ensures bounded { (result.plan.offset < 4294967296) × (result.plan.bits ≤ 4294967296) }
{
    let d = table::describe(table);
    let g = crate::planning::target_in(&d, r);
    if g.incremental {
        let there = incremental::check(&d, file, g.sequence, g.refused, g.position, r.row, r.own);
        let found = FileChecked {
            refused: there.refused,
            size: there.size,
            set: Set::default(),
            first: there.first,
        };
        return finish(r, g, found, d.rows, d.big);
    }
    let here = standard::check(&d, g.sequence, file, g.refused, g.binding.set, room);
    let found = FileChecked {
        refused: here.refused,
        size: here.size,
        set: here.set,
        first: 0,
    };
    finish(r, g, found, d.rows, d.big)
}
