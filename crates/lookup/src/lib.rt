// The public questions over a table and a data file (RULES.md 7), each one question to `lookup::ask::ask`. By position and by plan
// are two functions each, since each has a contract of its own that docs/EVIDENCE.md names.
#![tactic(auto)]

pub mod answer;
pub mod ask;

ghost use Rattle.std.specs.Prelude.{◌≡◌, length, ◌+◌, ◌/◌, false};
ghost use Rattle.lookup_rules.specs.Questions.{answer_of, room_after};
ghost use Rattle.lookup_rules.specs.Answers.{verdict_of, verdict_refusal, planned_of, planned_refusal, planned_plan, placed_of, placed_refusal, placed_bits, placed_looks, placed_in_bucket_of, in_bucket_refusal, in_bucket_bits, in_bucket_size, answer_bits, answer_looks};
ghost use Rattle.lookup_rules.specs.Views.{padded_of, view_of, view_by, Viewed};
ghost use Rattle.lookup_rules.specs.OneBucket.{OneBucket};

use bytes_at::Refusal;
use lookup_rules::{Asked, Placed, PlacedInBucket, Plan, Question};

// Place of a row, by position or by plan.
// Table, file, row and room are parameters of their own, here and below: so README names the questions, and so C lends them.
fn place_asked(
    table: &[u8],
    file: &[u8],
    row: usize,
    asked: Asked,
    room: &mut [u8],
) -> Result<Placed, Refusal>
    ensures value { (result ≡ placed_of (answer_of table.now file.now (Question.Place row asked) (length room.old))) × (room.new ≡ room_after table.now file.now (Question.Place row asked) (length room.old)) }
    ensures says { (placed_refusal result ≡ (answer_of table.now file.now (Question.Place row asked) (length room.old)).refused) × (placed_bits result ≡ answer_bits (answer_of table.now file.now (Question.Place row asked) (length room.old))) × (placed_looks result ≡ answer_looks (answer_of table.now file.now (Question.Place row asked) (length room.old))) }
{
    let a = crate::ask::ask(table, file, Question::Place(row, asked), room);
    lookup_question::types::placed(a)
}

// View of a row, by position or by plan, padded or not.
// `padded` is which of two questions is asked, and `view_by` takes it: a closure would be chosen by the same test.
fn view_asked<'f>(
    table: &[u8],
    file: &'f [u8],
    row: usize,
    asked: Asked,
    padded: bool,
    room: &mut [u8],
) -> &'f [u8]
    ensures value { (result.now ≡ view_by padded file.now (answer_of table.now file.now (Question.View row asked) (length room.old))) × (result.ref_ptr ≡ (file.entry.ref_ptr.0, file.entry.ref_ptr.1 + (answer_of table.now file.now (Question.View row asked) (length room.old)).first / 8)) × (room.new ≡ room_after table.now file.now (Question.View row asked) (length room.old)) }
    ensures shows { padded ≡ false → Viewed table.now file.now (length room.old) row asked result.now (answer_of table.now file.now (Question.View row asked) (length room.old)).refused }
{
    let q = Question::View(row, asked);
    let a = crate::ask::ask(table, file, q, room);
    lookup_question::types::part_of(file, a, padded)
}

// Why a view of a row, by position or by plan, is refused.
fn refusal_asked(table: &[u8], file: &[u8], row: usize, asked: Asked, room: &mut [u8]) -> Refusal
    ensures value { (result ≡ (answer_of table.now file.now (Question.View row asked) (length room.old)).refused) × (room.new ≡ room_after table.now file.now (Question.View row asked) (length room.old)) }
    ensures tells { Viewed table.now file.now (length room.old) row asked (view_of file.now (answer_of table.now file.now (Question.View row asked) (length room.old))) result }
{
    crate::ask::ask(table, file, Question::View(row, asked), room).refused
}

// File check. What either side of the answer says, the refusal and the values, is given by functions (`verdict_refusal`, ..).
pub fn check(table: &[u8], file: &[u8], sequence: usize, room: &mut [u8]) -> Result<(), Refusal>
    ensures value { (result ≡ verdict_of (answer_of table.now file.now (Question.Check sequence) (length room.old))) × (room.new ≡ room_after table.now file.now (Question.Check sequence) (length room.old)) }
    ensures says { verdict_refusal result ≡ (answer_of table.now file.now (Question.Check sequence) (length room.old)).refused }
{
    let a = crate::ask::ask(table, file, Question::Check(sequence), room);
    lookup_question::types::verdict(a)
}

// Plan.
pub fn make_plan(
    table: &[u8],
    file: &[u8],
    position: usize,
    room: &mut [u8],
) -> Result<Plan, Refusal>
    ensures value { (result ≡ planned_of (answer_of table.now file.now (Question.Prepare position) (length room.old))) × (room.new ≡ room_after table.now file.now (Question.Prepare position) (length room.old)) }
    ensures says { (planned_refusal result ≡ (answer_of table.now file.now (Question.Prepare position) (length room.old)).refused) × (planned_plan result ≡ (answer_of table.now file.now (Question.Prepare position) (length room.old)).plan) }
{
    let a = crate::ask::ask(table, file, Question::Prepare(position), room);
    lookup_question::types::planned(a)
}

// Place of a row and a column position.
pub fn place(
    table: &[u8],
    file: &[u8],
    row: usize,
    position: usize,
    room: &mut [u8],
) -> Result<Placed, Refusal>
    ensures value { (result ≡ placed_of (answer_of table.now file.now (Question.Place row (Asked.Position position)) (length room.old))) × (room.new ≡ room_after table.now file.now (Question.Place row (Asked.Position position)) (length room.old)) }
    ensures says { (placed_refusal result ≡ (answer_of table.now file.now (Question.Place row (Asked.Position position)) (length room.old)).refused) × (placed_bits result ≡ answer_bits (answer_of table.now file.now (Question.Place row (Asked.Position position)) (length room.old))) × (placed_looks result ≡ answer_looks (answer_of table.now file.now (Question.Place row (Asked.Position position)) (length room.old))) }
{
    place_asked(table, file, row, Asked::Position(position), room)
}

// Place of a row by a prepared plan.
pub fn place_planned(
    table: &[u8],
    file: &[u8],
    row: usize,
    plan: Plan,
    room: &mut [u8],
) -> Result<Placed, Refusal>
    ensures value { (result ≡ placed_of (answer_of table.now file.now (Question.Place row (Asked.Planned plan)) (length room.old))) × (room.new ≡ room_after table.now file.now (Question.Place row (Asked.Planned plan)) (length room.old)) }
    ensures says { (placed_refusal result ≡ (answer_of table.now file.now (Question.Place row (Asked.Planned plan)) (length room.old)).refused) × (placed_bits result ≡ answer_bits (answer_of table.now file.now (Question.Place row (Asked.Planned plan)) (length room.old))) × (placed_looks result ≡ answer_looks (answer_of table.now file.now (Question.Place row (Asked.Planned plan)) (length room.old))) }
{
    place_asked(table, file, row, Asked::Planned(plan), room)
}

// View of a row and a column position: the part of the file that holds the cell, of a String scalar with a maximum in StandardStMan
// its text alone; the empty part where it is refused.
#[tactic(auto, unfolding(lookup_rules::specs::Views::view_by))]
pub fn view<'f>(
    table: &[u8],
    file: &'f [u8],
    row: usize,
    position: usize,
    room: &mut [u8],
) -> &'f [u8]
    ensures result_value { (result.now ≡ view_of file.now (answer_of table.now file.now (Question.View row (Asked.Position position)) (length room.old))) × (result.ref_ptr ≡ (file.entry.ref_ptr.0, file.entry.ref_ptr.1 + (answer_of table.now file.now (Question.View row (Asked.Position position)) (length room.old)).first / 8)) × (room.new ≡ room_after table.now file.now (Question.View row (Asked.Position position)) (length room.old)) }
    ensures shows { Viewed table.now file.now (length room.old) row (Asked.Position position) result.now (answer_of table.now file.now (Question.View row (Asked.Position position)) (length room.old)).refused }
{
    view_asked(table, file, row, Asked::Position(position), false, room)
}

// Padded view of a row and a column position: the part of the file that holds the whole cell, the empty part where it is refused.
#[tactic(auto, unfolding(lookup_rules::specs::Views::view_by))]
pub fn padded_view<'f>(
    table: &[u8],
    file: &'f [u8],
    row: usize,
    position: usize,
    room: &mut [u8],
) -> &'f [u8]
    ensures { (result.now ≡ padded_of file.now (answer_of table.now file.now (Question.View row (Asked.Position position)) (length room.old))) × (result.ref_ptr ≡ (file.entry.ref_ptr.0, file.entry.ref_ptr.1 + (answer_of table.now file.now (Question.View row (Asked.Position position)) (length room.old)).first / 8)) × (room.new ≡ room_after table.now file.now (Question.View row (Asked.Position position)) (length room.old)) }
{
    view_asked(table, file, row, Asked::Position(position), true, room)
}

// Why that view, and the padded one, is refused; the refusal's number is 0 where it is not. So it tells an empty text from a refused
// view.
pub fn view_refusal(
    table: &[u8],
    file: &[u8],
    row: usize,
    position: usize,
    room: &mut [u8],
) -> Refusal
    ensures value { (result ≡ (answer_of table.now file.now (Question.View row (Asked.Position position)) (length room.old)).refused) × (room.new ≡ room_after table.now file.now (Question.View row (Asked.Position position)) (length room.old)) }
    ensures tells { Viewed table.now file.now (length room.old) row (Asked.Position position) (view_of file.now (answer_of table.now file.now (Question.View row (Asked.Position position)) (length room.old))) result }
{
    refusal_asked(table, file, row, Asked::Position(position), room)
}

// View of a row by a prepared plan.
#[tactic(auto, unfolding(lookup_rules::specs::Views::view_by))]
pub fn view_planned<'f>(
    table: &[u8],
    file: &'f [u8],
    row: usize,
    plan: Plan,
    room: &mut [u8],
) -> &'f [u8]
    ensures result_value { (result.now ≡ view_of file.now (answer_of table.now file.now (Question.View row (Asked.Planned plan)) (length room.old))) × (result.ref_ptr ≡ (file.entry.ref_ptr.0, file.entry.ref_ptr.1 + (answer_of table.now file.now (Question.View row (Asked.Planned plan)) (length room.old)).first / 8)) × (room.new ≡ room_after table.now file.now (Question.View row (Asked.Planned plan)) (length room.old)) }
    ensures shows { Viewed table.now file.now (length room.old) row (Asked.Planned plan) result.now (answer_of table.now file.now (Question.View row (Asked.Planned plan)) (length room.old)).refused }
{
    view_asked(table, file, row, Asked::Planned(plan), false, room)
}

// Padded view of a row by a prepared plan.
#[tactic(auto, unfolding(lookup_rules::specs::Views::view_by))]
pub fn padded_view_planned<'f>(
    table: &[u8],
    file: &'f [u8],
    row: usize,
    plan: Plan,
    room: &mut [u8],
) -> &'f [u8]
    ensures { (result.now ≡ padded_of file.now (answer_of table.now file.now (Question.View row (Asked.Planned plan)) (length room.old))) × (result.ref_ptr ≡ (file.entry.ref_ptr.0, file.entry.ref_ptr.1 + (answer_of table.now file.now (Question.View row (Asked.Planned plan)) (length room.old)).first / 8)) × (room.new ≡ room_after table.now file.now (Question.View row (Asked.Planned plan)) (length room.old)) }
{
    view_asked(table, file, row, Asked::Planned(plan), true, room)
}

// Why that view, and the padded one, is refused; the refusal's number is 0 where it is not.
pub fn view_planned_refusal(
    table: &[u8],
    file: &[u8],
    row: usize,
    plan: Plan,
    room: &mut [u8],
) -> Refusal
    ensures value { (result ≡ (answer_of table.now file.now (Question.View row (Asked.Planned plan)) (length room.old)).refused) × (room.new ≡ room_after table.now file.now (Question.View row (Asked.Planned plan)) (length room.old)) }
    ensures tells { Viewed table.now file.now (length room.old) row (Asked.Planned plan) (view_of file.now (answer_of table.now file.now (Question.View row (Asked.Planned plan)) (length room.old))) result }
{
    refusal_asked(table, file, row, Asked::Planned(plan), room)
}

// Place in one bucket, of a row and a column position in IncrementalStMan: of the buckets only the row's own is checked. On a file that
// the full check accepts it answers as Place does; on any file what is checked, and no more, decides (`OneBucket`).
pub fn place_in_bucket(
    table: &[u8],
    file: &[u8],
    row: usize,
    position: usize,
    room: &mut [u8],
) -> Result<PlacedInBucket, Refusal>
    ensures value { (result ≡ placed_in_bucket_of (answer_of table.now file.now (Question.PlaceInBucket row position) (length room.old))) × (room.new ≡ room_after table.now file.now (Question.PlaceInBucket row position) (length room.old)) }
    ensures says { (in_bucket_refusal result ≡ (answer_of table.now file.now (Question.PlaceInBucket row position) (length room.old)).refused) × (in_bucket_bits result ≡ answer_bits (answer_of table.now file.now (Question.PlaceInBucket row position) (length room.old))) × (in_bucket_size result ≡ (answer_of table.now file.now (Question.PlaceInBucket row position) (length room.old)).size) }
    ensures one { OneBucket table.now file.now row position (length room.old) }
{
    let a = crate::ask::ask(table, file, Question::PlaceInBucket(row, position), room);
    lookup_question::types::placed_in_bucket(a)
}
