// Every question over a table and a data file (RULES.md 7), answered by one function, which alone clears the room.
ghost use Rattle.std.specs.Prelude.{◌≡◌, length};
ghost use Rattle.lookup_rules.specs.Questions.{answer_of, room_after};

use lookup_rules::{Answer, Question};

// Every question: the answer, and the room as it is left.
pub fn ask(table: &[u8], file: &[u8], q: Question, room: &mut [u8]) -> Answer
    ensures { (result ≡ answer_of table.now file.now q (length room.old)) × (room.new ≡ room_after table.now file.now q (length room.old)) }
{
    let r = lookup_question::reading::read(q);
    let s = lookup_stages::stages(table, file, r, room);
    let cell = crate::answer::find_cell(room, s, r);
    let keep = crate::answer::keeps_text(s);
    crate::answer::settle(keep, room);
    crate::answer::answer(r, s, cell)
}
