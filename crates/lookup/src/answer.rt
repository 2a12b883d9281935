// The answer of a question that all stages are known of, and the one place that clears the room (RULES.md 7.7 and 7.8).
ghost use Rattle.std.specs.Prelude.{◌≡◌, true, false};
ghost use Rattle.lookup.specs.Answering.{keeps_text, room_settled, Findable, cell_found, answer_with};

use bytes_at::Refusal;
use lookup_rules::{Answer, Plan, Request, Staged};
use standard::Located;

// Whether the room keeps the index text.
pub fn keeps_text(s: Staged) -> bool
    ensures { result ≡ keeps_text s }
{
    s.refused.number == 0 && !s.incremental
}

// The one place that clears the room.
// `keep` is what `room_settled` takes; docs/DECISIONS.md names this function as the one that clears the room.
#[tactic(auto, unfolding(crate::specs::Answering::room_settled))]
pub fn settle(keep: bool, room: &mut [u8])
    ensures { room.new ≡ room_settled keep room.old }
{
    if !keep {
        room.fill(0);
    }
}

// The cell that a question asks for: in StandardStMan by the index text in the room; in IncrementalStMan the check has found it,
// and no last rows are looked at. Zeros where the question asks for none or is refused.
#[tactic(auto, unfolding(crate::specs::Answering::cell_found))]
pub fn find_cell(room: &[u8], s: Staged, r: Request) -> Located
    requires { s.refused.number ≡ 0 → r.cell ≡ true → s.incremental ≡ false → Findable room.now s r.row }
    ensures { result ≡ cell_found room.now s r }
{
    if s.refused.number != 0 || !r.cell {
        Located::default()
    } else if s.incremental {
        Located {
            first: s.first,
            ..Located::default()
        }
    } else {
        standard::place::locate(
            room,
            s.big,
            s.set,
            s.plan.size,
            s.plan.offset,
            s.plan.bits,
            r.row,
        )
    }
}

// A refusal, and zeros. Every other answer has the file's bucket size; a check answers no plan and no column, and only a
// place or a view has bits and looks.
#[tactic(auto, unfolding(lookup_rules::specs::Questions::answered))]
pub fn answer(r: Request, s: Staged, cell: Located) -> Answer
    ensures { result ≡ answer_with r s cell }
{
    let refused = Answer {
        refused: s.refused,
        size: 0,
        plan: Plan::default(),
        column: table_column_desc::columns::no_column(),
        first: 0,
        count: 0,
        looks: 0,
        entries: 0,
    };
    if s.refused.number != 0 {
        return refused;
    }
    let checked = Answer {
        refused: Refusal { number: 0, byte: 0 },
        size: s.plan.size,
        ..refused
    };
    let described = if r.column {
        Answer {
            plan: s.plan,
            column: s.column,
            ..checked
        }
    } else {
        checked
    };
    if r.cell {
        Answer {
            first: cell.first,
            count: s.plan.bits,
            looks: cell.looks,
            entries: cell.entries,
            ..described
        }
    } else {
        described
    }
}
