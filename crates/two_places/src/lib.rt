// Demand 3 of what the functions answer: two places of one table and one data file, each asked by position or by plan and each
// with its own index room.
#![tactic(auto)]

ghost use Rattle.std.specs.Prelude.{◌≡◌, length};
ghost use Rattle.lookup_rules.specs.Questions.{answer_of, room_after};
ghost use Rattle.lookup_rules.specs.declared.Question.TheVariants.{Place};
ghost use Rattle.lookup_rules.specs.Answers.{placed_of};
ghost use Rattle.two_places.specs.Demand.{PlacedThere, Demanded};

use bytes_at::Refusal;
use lookup_rules::{Asked, Placed};

#[derive(Clone, Copy)]
pub struct Two {
    pub one: Result<Placed, Refusal>,
    pub other: Result<Placed, Refusal>,
}

// Place, as it is asked. In IncrementalStMan the place lies wholly inside the data part of the bucket that the index gives to its
// row, off the header, off every free bucket and off the ISMIndex.
// Not `lookup::place_asked`, which is private: `there` is promised here alone.
pub fn place_by(
    table: &[u8],
    file: &[u8],
    row: usize,
    asked: Asked,
    room: &mut [u8],
) -> Result<Placed, Refusal>
    ensures value { (result ≡ placed_of (answer_of table.now file.now (Place row asked) (length room.old))) × (room.new ≡ room_after table.now file.now (Place row asked) (length room.old)) }
    ensures there { PlacedThere table.now file.now row asked result }
{
    match asked {
        Asked::Position(position) => lookup::place(table, file, row, position, room),
        Asked::Planned(plan) => lookup::place_planned(table, file, row, plan, room),
    }
}

// Wrong answers that the contract rules out: one place for two cells, and a place in a free bucket.
// Eight parameters: two questions side by side, each lent as `lookup::place` is; `Demanded` takes them so.
pub fn two_places(
    table: &[u8],
    file: &[u8],
    row: usize,
    asked: Asked,
    room: &mut [u8],
    row2: usize,
    asked2: Asked,
    room2: &mut [u8],
) -> Two
    ensures demanded { Demanded table.now file.now row asked result.one row2 asked2 result.other }
    ensures one { (result.one ≡ placed_of (answer_of table.now file.now (Place row asked) (length room.old))) × (room.new ≡ room_after table.now file.now (Place row asked) (length room.old)) }
    ensures other { (result.other ≡ placed_of (answer_of table.now file.now (Place row2 asked2) (length room2.old))) × (room2.new ≡ room_after table.now file.now (Place row2 asked2) (length room2.old)) }
{
    let one = place_by(table, file, row, asked, room);
    let other = place_by(table, file, row2, asked2, room2);
    Two { one, other }
}
