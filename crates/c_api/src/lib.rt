// The questions for C: numbers and lent slices, each a pointer and a length. A function gives 0, or the number of the refusal, and
// writes the numbers of its answer into `out`, as many as it holds. So an answer can become longer, and a program that lends the
// shorter `out` of an earlier version gets what it got then. Where it is refused they are zeros, but for the byte of the refusal, the
// last of them today. A plan of fewer than nine numbers gives 255, and nothing is written, the room included. `hv_element_bits` alone
// can not be refused: it has no `out`, and gives the bits. Functions of one shape stay, each with its exported name and its contract; what they
// share is `answer_place`, `answer_view` and `tell`.
#![tactic(auto)]

ghost use Rattle.std.specs.Prelude.{◌≡◌, length};
ghost use Rattle.table_rules.specs.DataType.{element_bits};
ghost use Rattle.table_rules.specs.Table.{described_as, column_named, position_refusal};
ghost use Rattle.c_numbers.specs.Answers.{written, summary_of, column_refusal, column_numbers, manager_refusal, manager_numbers, position_numbers, if_nine};
ghost use Rattle.lookup_rules.specs.Questions.{answer_of, room_after};
ghost use Rattle.lookup_rules.specs.Views.{padded_of, view_of, view_by};
ghost use Rattle.c_numbers.specs.Numbers.{check_numbers, plan_numbers, place_numbers, view_numbers, in_bucket_numbers, plan_from};

use bytes_at::Refusal;
use lookup_rules::{Asked, Question};
use table_rules::data_type::DataType;

// The numbers of an answer, and the number of its refusal.
fn tell(values: &[u64], why: Refusal, out: &mut [u64]) -> u64
    ensures { (result ≡ why.number) × (out.new ≡ written values.now out.old) }
{
    c_numbers::values::write(values, out);
    why.number as u64
}

// Row count, byte order (1: big endian), number of columns, number of managers, byte: 5 numbers.
#[unsafe(no_mangle)]
pub extern "C" fn hv_description(table: &[u8], out: &mut [u64]) -> u64
    ensures { (result ≡ (described_as table.now).refused.number) × (out.new ≡ written (summary_of (described_as table.now)) out.old) }
{
    let d = table::describe(table);
    let values = [
        d.rows as u64,
        u64::from(d.big),
        d.column_count as u64,
        d.manager_count as u64,
        d.refused.byte as u64,
    ];
    tell(&values, d.refused, out)
}

// A column, 12 numbers: where its name begins in table.dat and how long it is, data type number, 1 for an array, options,
// element count, string maximum, cell bits, sequence number, set, offset and byte. No such column: 8.
#[unsafe(no_mangle)]
pub extern "C" fn hv_column(table: &[u8], position: u64, out: &mut [u64]) -> u64
    ensures { (result ≡ (column_refusal (described_as table.now) position).number) × (out.new ≡ written (column_numbers (described_as table.now) position) out.old) }
{
    let d = table::describe(table);
    let count = d.column_count;
    let no_column = table_column_desc::columns::no_column();
    let c = c_numbers::values::pick(&d.columns, count, position, no_column);
    let no_binding = table_column_set::bindings::no_binding();
    let b = c_numbers::values::pick(&d.bindings, count, position, no_binding);
    let why = c_numbers::values::refusal(d.refused, position, count);
    let values = c_numbers::of_column(c, b, why);
    tell(&values, why, out)
}

// A manager, 5 numbers: sequence number, kind (1 StandardStMan, 2 IncrementalStMan, 0 any other), where its name begins in
// table.dat and how long it is, byte. No such manager: 8.
#[unsafe(no_mangle)]
pub extern "C" fn hv_manager(table: &[u8], index: u64, out: &mut [u64]) -> u64
    ensures { (result ≡ (manager_refusal (described_as table.now) index).number) × (out.new ≡ written (manager_numbers (described_as table.now) index) out.old) }
{
    let d = table::describe(table);
    let count = d.manager_count;
    let no_manager = table_column_set::data_managers::no_manager();
    let m = c_numbers::values::pick(&d.managers, count, index, no_manager);
    let why = c_numbers::values::refusal(d.refused, index, count);
    let values = c_numbers::of_manager(m, why);
    tell(&values, why, out)
}

// The position of the column with a name, and the byte: 2 numbers. No such column: 8.
#[unsafe(no_mangle)]
pub extern "C" fn hv_column_by_name(table: &[u8], name: &[u8], out: &mut [u64]) -> u64
    ensures { (result ≡ (position_refusal (column_named table.now name.now)).number) × (out.new ≡ written (position_numbers (column_named table.now name.now)) out.old) }
{
    let p = table::names::column_by_name(table, name);
    let why = c_numbers::values::position_refusal(p);
    let position = c_numbers::values::position_number(p);
    tell(&[position, why.byte as u64], why, out)
}

// File check, 2 numbers: the file's bucket size, and the byte.
#[unsafe(no_mangle)]
pub extern "C" fn hv_check(
    table: &[u8],
    file: &[u8],
    sequence: u64,
    room: &mut [u8],
    out: &mut [u64],
) -> u64
    ensures { (result ≡ (answer_of table.now file.now (Question.Check sequence) (length room.old)).refused.number) × (out.new ≡ written (check_numbers (answer_of table.now file.now (Question.Check sequence) (length room.old))) out.old) × (room.new ≡ room_after table.now file.now (Question.Check sequence) (length room.old)) }
{
    let a = lookup::ask::ask(table, file, Question::Check(sequence as usize), room);
    let values = c_numbers::of_check(a);
    tell(&values, a.refused, out)
}

// Plan, 10 numbers: its nine in their order, and the byte.
#[unsafe(no_mangle)]
pub extern "C" fn hv_plan(
    table: &[u8],
    file: &[u8],
    position: u64,
    room: &mut [u8],
    out: &mut [u64],
) -> u64
    ensures { (result ≡ (answer_of table.now file.now (Question.Prepare position) (length room.old)).refused.number) × (out.new ≡ written (plan_numbers (answer_of table.now file.now (Question.Prepare position) (length room.old))) out.old) × (room.new ≡ room_after table.now file.now (Question.Prepare position) (length room.old)) }
{
    let a = lookup::ask::ask(table, file, Question::Prepare(position as usize), room);
    let values = c_numbers::of_plan(a);
    tell(&values, a.refused, out)
}

// Place of a row, by position or by plan.
fn answer_place(
    table: &[u8],
    file: &[u8],
    row: u64,
    asked: Asked,
    room: &mut [u8],
    out: &mut [u64],
) -> u64
    ensures { (result ≡ (answer_of table.now file.now (Question.Place row asked) (length room.old)).refused.number) × (out.new ≡ written (place_numbers (answer_of table.now file.now (Question.Place row asked) (length room.old))) out.old) × (room.new ≡ room_after table.now file.now (Question.Place row asked) (length room.old)) }
{
    let a = lookup::ask::ask(table, file, Question::Place(row as usize, asked), room);
    let values = c_numbers::of_place(a);
    tell(&values, a.refused, out)
}

// View of a row, by position or by plan, padded or not: the start and the length of its part of the file, in bytes.
// `padded` is which of two questions C asks, and `view_by` takes it: a closure would be chosen by the same test.
fn answer_view(
    table: &[u8],
    file: &[u8],
    row: u64,
    asked: Asked,
    padded: bool,
    room: &mut [u8],
    out: &mut [u64],
) -> u64
    ensures { (result ≡ (answer_of table.now file.now (Question.View row asked) (length room.old)).refused.number) × (out.new ≡ written (view_numbers (answer_of table.now file.now (Question.View row asked) (length room.old)) (length (view_by padded file.now (answer_of table.now file.now (Question.View row asked) (length room.old))))) out.old) × (room.new ≡ room_after table.now file.now (Question.View row asked) (length room.old)) }
{
    let a = lookup::ask::ask(table, file, Question::View(row as usize, asked), room);
    let part = lookup_question::types::part_of(file, a, padded);
    let values = c_numbers::of_view(a, part.len());
    tell(&values, a.refused, out)
}

// Place, of a row and a position: first bit and bit count, the looks of the search and the entries of the column's set, the byte,
// 5 numbers.
#[unsafe(no_mangle)]
pub extern "C" fn hv_place(
    table: &[u8],
    file: &[u8],
    row: u64,
    position: u64,
    room: &mut [u8],
    out: &mut [u64],
) -> u64
    ensures { (result ≡ (answer_of table.now file.now (Question.Place row (Asked.Position position)) (length room.old)).refused.number) × (out.new ≡ written (place_numbers (answer_of table.now file.now (Question.Place row (Asked.Position position)) (length room.old))) out.old) × (room.new ≡ room_after table.now file.now (Question.Place row (Asked.Position position)) (length room.old)) }
{
    let asked = Asked::Position(position as usize);
    answer_place(table, file, row, asked, room, out)
}

// The same for a prepared plan of nine numbers; 255, and nothing is written, where it has fewer.
#[tactic(auto, unfolding(c_numbers::specs::Answers::if_nine))]
#[unsafe(no_mangle)]
pub extern "C" fn hv_place_planned(
    table: &[u8],
    file: &[u8],
    row: u64,
    plan: &[u64],
    room: &mut [u8],
    out: &mut [u64],
) -> u64
    ensures { (result ≡ if_nine plan.now 255 (answer_of table.now file.now (Question.Place row (Asked.Planned (plan_from plan.now))) (length room.old)).refused.number) × (out.new ≡ if_nine plan.now out.old (written (place_numbers (answer_of table.now file.now (Question.Place row (Asked.Planned (plan_from plan.now))) (length room.old))) out.old)) × (room.new ≡ if_nine plan.now room.old (room_after table.now file.now (Question.Place row (Asked.Planned (plan_from plan.now))) (length room.old))) }
{
    let Some(p) = c_numbers::plan_if_nine(plan) else {
        return 255;
    };
    answer_place(table, file, row, Asked::Planned(p), room, out)
}

// View, of a row and a position: where its part of the file starts and how long it is, in bytes, and the byte of the refusal, 3
// numbers. Of a String scalar with a maximum in StandardStMan it is the text, of every other column the whole cell.
#[tactic(auto, unfolding(lookup_rules::specs::Views::view_by))]
#[unsafe(no_mangle)]
pub extern "C" fn hv_view(
    table: &[u8],
    file: &[u8],
    row: u64,
    position: u64,
    room: &mut [u8],
    out: &mut [u64],
) -> u64
    ensures { (result ≡ (answer_of table.now file.now (Question.View row (Asked.Position position)) (length room.old)).refused.number) × (out.new ≡ written (view_numbers (answer_of table.now file.now (Question.View row (Asked.Position position)) (length room.old)) (length (view_of file.now (answer_of table.now file.now (Question.View row (Asked.Position position)) (length room.old))))) out.old) × (room.new ≡ room_after table.now file.now (Question.View row (Asked.Position position)) (length room.old)) }
{
    let asked = Asked::Position(position as usize);
    answer_view(table, file, row, asked, false, room, out)
}

// The same for a prepared plan of nine numbers; 255, and nothing is written, where it has fewer.
#[tactic(auto, unfolding(lookup_rules::specs::Views::view_by, c_numbers::specs::Answers::if_nine))]
#[unsafe(no_mangle)]
pub extern "C" fn hv_view_planned(
    table: &[u8],
    file: &[u8],
    row: u64,
    plan: &[u64],
    room: &mut [u8],
    out: &mut [u64],
) -> u64
    ensures { (result ≡ if_nine plan.now 255 (answer_of table.now file.now (Question.View row (Asked.Planned (plan_from plan.now))) (length room.old)).refused.number) × (out.new ≡ if_nine plan.now out.old (written (view_numbers (answer_of table.now file.now (Question.View row (Asked.Planned (plan_from plan.now))) (length room.old)) (length (view_of file.now (answer_of table.now file.now (Question.View row (Asked.Planned (plan_from plan.now))) (length room.old))))) out.old)) × (room.new ≡ if_nine plan.now room.old (room_after table.now file.now (Question.View row (Asked.Planned (plan_from plan.now))) (length room.old))) }
{
    let Some(p) = c_numbers::plan_if_nine(plan) else {
        return 255;
    };
    answer_view(table, file, row, Asked::Planned(p), false, room, out)
}

// Padded view, of a row and a position: the same numbers, of the whole cell in every column.
#[tactic(auto, unfolding(lookup_rules::specs::Views::view_by))]
#[unsafe(no_mangle)]
pub extern "C" fn hv_padded_view(
    table: &[u8],
    file: &[u8],
    row: u64,
    position: u64,
    room: &mut [u8],
    out: &mut [u64],
) -> u64
    ensures { (result ≡ (answer_of table.now file.now (Question.View row (Asked.Position position)) (length room.old)).refused.number) × (out.new ≡ written (view_numbers (answer_of table.now file.now (Question.View row (Asked.Position position)) (length room.old)) (length (padded_of file.now (answer_of table.now file.now (Question.View row (Asked.Position position)) (length room.old))))) out.old) × (room.new ≡ room_after table.now file.now (Question.View row (Asked.Position position)) (length room.old)) }
{
    let asked = Asked::Position(position as usize);
    answer_view(table, file, row, asked, true, room, out)
}

// The same for a prepared plan of nine numbers; 255, and nothing is written, where it has fewer.
#[tactic(auto, unfolding(lookup_rules::specs::Views::view_by, c_numbers::specs::Answers::if_nine))]
#[unsafe(no_mangle)]
pub extern "C" fn hv_padded_view_planned(
    table: &[u8],
    file: &[u8],
    row: u64,
    plan: &[u64],
    room: &mut [u8],
    out: &mut [u64],
) -> u64
    ensures { (result ≡ if_nine plan.now 255 (answer_of table.now file.now (Question.View row (Asked.Planned (plan_from plan.now))) (length room.old)).refused.number) × (out.new ≡ if_nine plan.now out.old (written (view_numbers (answer_of table.now file.now (Question.View row (Asked.Planned (plan_from plan.now))) (length room.old)) (length (padded_of file.now (answer_of table.now file.now (Question.View row (Asked.Planned (plan_from plan.now))) (length room.old))))) out.old)) × (room.new ≡ if_nine plan.now room.old (room_after table.now file.now (Question.View row (Asked.Planned (plan_from plan.now))) (length room.old))) }
{
    let Some(p) = c_numbers::plan_if_nine(plan) else {
        return 255;
    };
    answer_view(table, file, row, Asked::Planned(p), true, room, out)
}

// Place in one bucket, of a row and a position in IncrementalStMan: first bit and bit count, the file's bucket size, the byte, 4 numbers.
#[unsafe(no_mangle)]
pub extern "C" fn hv_place_in_bucket(
    table: &[u8],
    file: &[u8],
    row: u64,
    position: u64,
    room: &mut [u8],
    out: &mut [u64],
) -> u64
    ensures { (result ≡ (answer_of table.now file.now (Question.PlaceInBucket row position) (length room.old)).refused.number) × (out.new ≡ written (in_bucket_numbers (answer_of table.now file.now (Question.PlaceInBucket row position) (length room.old))) out.old) × (room.new ≡ room_after table.now file.now (Question.PlaceInBucket row position) (length room.old)) }
{
    let q = Question::PlaceInBucket(row as usize, position as usize);
    let a = lookup::ask::ask(table, file, q, room);
    let values = c_numbers::of_place_in_bucket(a);
    tell(&values, a.refused, out)
}

// The bits of an element, from the number of a data type; 0 for a String's and for every number that is none of the types.
#[unsafe(no_mangle)]
pub extern "C" fn hv_element_bits(number: u64) -> u64
    ensures { result ≡ element_bits number }
{
    DataType::bits_of(number as usize) as u64
}
