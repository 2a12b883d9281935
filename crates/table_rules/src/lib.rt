// The rules of table.dat (RULES.md 4; Note 260, 3.1), as definitions over its bytes: `specs/`, in the chapter's order. Here
// stand the types that they speak of, in the same order. The type of data types stands in `data_type` with its functions.
#![tactic(auto)]

pub mod data_type;

use crate::data_type::DataType;
use aipsio_rules::Cursor;
use bytes_at::Refusal;

// What a column type string says: whether the cells are arrays, and the type of an element, where it names one.
#[derive(Clone, Copy)]
pub struct ColumnType {
    pub array: bool,
    pub datatype: Option<DataType>,
}

// A column's type, and the cursor past the string that says it.
#[derive(Clone, Copy)]
pub struct TypeRead {
    pub array: bool,
    pub datatype: DataType,
    pub next: Cursor,
}

// The first fields of a ColumnDesc, up to the name. The name's field begins at `from`.
#[derive(Clone, Copy)]
pub struct ColumnHead {
    pub array: bool,
    pub datatype: DataType,
    pub start: usize,
    pub len: usize,
    pub from: usize,
    pub next: Cursor,
}

// Options and element count, and the cursor past the shape.
#[derive(Clone, Copy)]
pub struct Layout {
    pub options: usize,
    pub elements: usize,
    pub next: Cursor,
}

// A column as its table describes it. Its name is a part of table.dat. Elements: 1 for a scalar, the product of a fixed
// shape, else 0. Bits: those of a cell, not rounded.
#[derive(Clone, Copy)]
pub struct Column {
    pub start: usize,
    pub len: usize,
    pub datatype: DataType,
    pub array: bool,
    pub options: u8,
    pub elements: u32,
    pub maximum: u32,
    pub bits: u32,
}

impl Column {
    // No Default: it is what stands where there is none, and has the name of `no_column`.
    pub const NONE: Column = Column {
        start: 0,
        len: 0,
        datatype: DataType::BOOL,
        array: false,
        options: 0,
        elements: 0,
        maximum: 0,
        bits: 0,
    };
}

// A column, and the cursor past its description.
#[derive(Clone, Copy)]
pub struct ColumnRead {
    pub column: Column,
    pub next: Cursor,
}

// Columns in stored order, and the cursor past them.
// A list of fixed length, since there is no heap; how many stand in it the caller knows, who asked for as many.
#[derive(Clone, Copy)]
pub struct Columns {
    pub columns: [Column; 64],
    pub next: Cursor,
}

// The table's row count, the highest sequence number and the number of managers, and the cursor past them.
#[derive(Clone, Copy)]
pub struct ColumnSetHead {
    pub rows: usize,
    pub highest: usize,
    pub count: usize,
    pub next: Cursor,
}

// A manager's kind is its exact name.
#[derive(Clone, Copy, PartialEq, Eq)]
pub enum Kind {
    Other,
    Standard,
    Incremental,
}

// A data manager: its name as a part of table.dat, its sequence number and its kind.
#[derive(Clone, Copy)]
pub struct Manager {
    pub start: usize,
    pub number: usize,
    pub len: u16,
    pub kind: Kind,
}

impl Manager {
    // No Default: it is what stands where there is none, and has the name of `no_manager`.
    pub const NONE: Manager = Manager {
        start: 0,
        number: 0,
        len: 0,
        kind: Kind::Other,
    };
}

// Managers in stored order, and the cursor past them.
// A list of fixed length, since there is no heap; how many stand in it the caller knows, who asked for as many.
#[derive(Clone, Copy)]
pub struct Managers {
    pub managers: [Manager; 16],
    pub next: Cursor,
}

// A column's sequence number, whose field begins at `from`.
#[derive(Clone, Copy)]
pub struct Sequence {
    pub value: usize,
    pub from: usize,
    pub next: Cursor,
}

// A column's sequence number, the position of the manager that has it, and how many earlier columns that manager has.
// No Option: where no manager has the number, the position is how many there are, as `first_number` (specs/ColumnSet) gives it.
#[derive(Clone, Copy)]
pub struct Owner {
    pub sequence: u32,
    pub manager: u32,
    pub rank: u32,
}

impl Owner {
    // No Default: it is what stands where there is none, and has the name of `no_owner`.
    pub const NONE: Owner = Owner {
        sequence: 0,
        manager: 0,
        rank: 0,
    };
}

// The owners of the columns in stored order, how many columns each manager has, and the cursor past ColumnInfo.
// Lists of fixed length, since there is no heap.
#[derive(Clone, Copy)]
pub struct Owners {
    pub owners: [Owner; 64],
    pub next: Cursor,
    pub counts: [usize; 16],
}

// Where a manager's DMInfo has the set numbers and the offsets of its columns, 4 bytes each.
#[derive(Clone, Copy)]
pub struct Info {
    pub sets: usize,
    pub offsets: usize,
}

// DMInfo of a manager, if it tells them, and the cursor past it.
#[derive(Clone, Copy)]
pub struct InfoRead {
    pub info: Option<Info>,
    pub next: Cursor,
}

// The same of the managers in stored order, and the cursor past all of them.
// A list of fixed length, since there is no heap.
#[derive(Clone, Copy)]
pub struct Infos {
    pub infos: [Option<Info>; 16],
    pub next: Cursor,
}

// Where a column is kept: its manager's sequence number, and the set number and the offset that DMInfo tells.
#[derive(Clone, Copy)]
pub struct Binding {
    pub set: usize,
    pub sequence: u32,
    pub offset: u32,
}

impl Binding {
    // No Default: it is what stands where there is none, and has the name of `no_binding`.
    pub const NONE: Binding = Binding {
        sequence: 0,
        set: 0,
        offset: 0,
    };
}

// The count in Table's header and the endianness, and the cursor past the table type.
#[derive(Clone, Copy)]
pub struct TableHead {
    pub rows: usize,
    pub big: bool,
    pub next: Cursor,
}

// The number of columns, and the cursor at the first column description.
#[derive(Clone, Copy)]
pub struct TableDescHead {
    pub count: usize,
    pub next: Cursor,
}

// What table.dat says; zeros where it is refused. The columns stand in stored order, each with its binding.
// Zeros beside a refusal, and no Err: `refused_table` has them and C is told them. Lists of fixed length: there is no heap.
// Columns and bindings are two lists, as `described_as` has them: each is filled where it lies, by the loop that reads it.
// That there are at most 64 columns is a clause of who needs it: definitions build Descriptions too, and would all carry a ghost field.
#[derive(Clone, Copy)]
pub struct Description {
    pub refused: Refusal,
    pub rows: usize,
    pub column_count: usize,
    pub manager_count: usize,
    pub columns: [Column; 64],
    pub bindings: [Binding; 64],
    pub managers: [Manager; 16],
    pub big: bool,
}
