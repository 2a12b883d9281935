// The rules of keywords (RULES.md 4.12 to 4.17; Note 260, 2.1 and 2.4), as definitions over the bytes of table.dat: `specs/`, in
// the chapter's order. Here stand the types that they speak of. The code that follows them is in `keyword_values`,
// `keyword_desc` and `keywords`.
#![tactic(auto)]

use aipsio_rules::Cursor;

// The type numbers of a Table and of a Record.
pub const TABLE: usize = 12;

pub const RECORD: usize = 25;

// The first fields of a field's description: its name, a part of table.dat, and its type number, 0 where the cursor is refused.
// Type numbers are no enum, here and below: `is_keyword_type` judges every uInt, and C is told them.
#[derive(Clone, Copy)]
pub struct FieldHead {
    pub number: usize,
    pub start: usize,
    pub len: usize,
    pub next: Cursor,
}

// What a value holds: how many fields, the version of their description, where that and their values stand; no fields, and the cursor
// past the value, where it is no record. `outer` is where a whole TableRecord begins, none for all others; `past` is behind what the
// type asks for in the description.
#[derive(Clone, Copy)]
pub struct Held {
    pub count: usize,
    pub version: usize,
    pub desc: Cursor,
    pub values: Cursor,
    pub outer: Option<Cursor>,
    pub past: Cursor,
}

// What is asked of a keyword set: the value that the path names, or the field with a number of the record that it names.
#[derive(Clone, Copy)]
pub enum Sought {
    Value,
    Field(usize),
}

// A field of a record: its name, a part of table.dat, its type number and the part that holds its value.
#[derive(Clone, Copy)]
pub struct Field {
    pub name: usize,
    pub name_len: usize,
    pub number: usize,
    pub start: usize,
    pub len: usize,
}

// Where a walk through the fields of a record stands: in its description, in its values, and in the path, whose cursor is at the
// name that is looked for among the fields, and refused where none is.
#[derive(Clone, Copy)]
pub struct Standing {
    pub desc: Cursor,
    pub values: Cursor,
    pub path: Cursor,
    pub found: Option<Field>,
}

// A value's end, and what was found.
#[derive(Clone, Copy)]
pub struct Walked {
    pub values: Cursor,
    pub found: Option<Field>,
}

// Whose keywords: the table's, or those of the column at a position.
#[derive(Clone, Copy)]
pub enum Scope {
    Table,
    Column(usize),
}

// A keyword: its type number and the part of table.dat that holds its value.
#[derive(Clone, Copy)]
pub struct Keyword {
    pub number: usize,
    pub start: usize,
    pub len: usize,
}
