// The questions File check, Plan, Place and View (RULES.md 7), as definitions over the bytes of both files:
// `specs/`. The code that answers them is in `lookup`.
#![tactic(auto)]

use bytes_at::Refusal;
use standard_rules::Set;
use table_rules::{Binding, Column};

// A prepared plan: nine numbers in the order of RULES.md 7.4. `datatype` is the data type's number, `per` the rows per bucket.
// Numbers alone: any nine numbers that C hands in are a plan.
#[derive(Clone, Copy, Default, PartialEq, Eq)]
pub struct Plan {
    pub position: usize,
    pub sequence: usize,
    pub datatype: usize,
    pub elements: usize,
    pub bits: usize,
    pub set: usize,
    pub offset: usize,
    pub per: usize,
    pub size: usize,
}

// By what a column is asked for: by its position, or by a prepared plan, which has the position of its column.
#[derive(Clone, Copy, PartialEq, Eq)]
pub enum Asked {
    Position(usize),
    Planned(Plan),
}

// A question: the check of a sequence number's file; the plan of a column's position; the place, or the view, of a row's cell; the
// place of the cell of a row and a column's position by the row's bucket alone, in IncrementalStMan.
#[derive(Clone, Copy, PartialEq, Eq)]
pub enum Question {
    Check(usize),
    Prepare(usize),
    Place(usize, Asked),
    View(usize, Asked),
    PlaceInBucket(usize, usize),
}

// A question, read once: whether it asks for a column, for a cell of the column, for the cell's view, whether by a prepared plan, and
// whether by the row's own bucket, the only one of an IncrementalStMan file that is then checked; the sequence number that a check
// is for, the row, the column's position, and the plan. What it does not ask for is 0.
// Flags, and no enum: `is_column`, `is_fresh`, .. and the theorem `EveryPlan`, over two Requests, speak of its fields one by one.
#[derive(Clone, Copy, Default)]
pub struct Request {
    pub column: bool,
    pub cell: bool,
    pub view: bool,
    pub planned: bool,
    pub own: bool,
    pub sequence: usize,
    pub row: usize,
    pub position: usize,
    pub plan: Plan,
}

// The column and the manager that a question is about: what the table says of the column and where it is kept, the manager's sequence
// number, whether that is an IncrementalStMan, and the refusal so far.
// No Err: `target_of` has a refusal beside the values, and the refusal is handed to the check of the file.
#[derive(Clone, Copy)]
pub struct Target {
    pub refused: Refusal,
    pub position: usize,
    pub sequence: usize,
    pub incremental: bool,
    pub column: Column,
    pub binding: Binding,
}

// What the check of the manager's file tells: the bucket size; of a StandardStMan file where the column's set stands in the index
// text, of an IncrementalStMan file where the cell that is asked for begins. Zeros and the refusal where it is refused.
// No Err: `file_of` has the zeros.
#[derive(Clone, Copy)]
pub struct FileChecked {
    pub refused: Refusal,
    pub size: usize,
    pub set: Set,
    pub first: usize,
}

// The refusal after all stages, the fresh plan, the manager's sequence number, the column, whether the manager is an IncrementalStMan
// and whether the table is big endian; where the column's set stands in the index text, or where the cell of an IncrementalStMan file
// begins.
// No Err: `stages_of` has the refusal beside the values.
#[derive(Clone, Copy)]
pub struct Staged {
    pub refused: Refusal,
    pub plan: Plan,
    pub sequence: usize,
    pub column: Column,
    pub incremental: bool,
    pub big: bool,
    pub set: Set,
    pub first: usize,
}

// The refusal and zeros; or none, the file's bucket size, the plan and the column, and for a place or a view the first bit and the bit
// count, with the looks of the search for it and the entries of the column's set.
// No Result: `answered` has the zeros, `Says` speaks of them, and C is told them.
#[derive(Clone, Copy)]
pub struct Answer {
    pub refused: Refusal,
    pub size: usize,
    pub plan: Plan,
    pub column: Column,
    pub first: usize,
    pub count: usize,
    pub looks: usize,
    pub entries: usize,
}

// A place: first bit and bit count, the looks of the search for it and the entries of the column's set.
#[derive(Clone, Copy)]
pub struct Placed {
    pub first: usize,
    pub count: usize,
    pub looks: usize,
    pub entries: usize,
}

// The place by the row's bucket alone, and the file's bucket size. No last rows are looked at.
#[derive(Clone, Copy)]
pub struct PlacedInBucket {
    pub first: usize,
    pub count: usize,
    pub size: usize,
}
