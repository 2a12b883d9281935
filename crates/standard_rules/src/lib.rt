// The rules of StandardStMan files (RULES.md 5; Note 260, 3.4.2), as definitions over the bytes: `specs/`, in the
// chapter's order. Here stand the types that they speak of. The code that follows them is in `standard_index` and `standard`.
#![tactic(auto)]

use aipsio_rules::Cursor;
use bytes_at::Refusal;

// The header's fields on buckets, and the cursor past them.
// IncrementalStMan's `HeaderFields` is another record: each manager's definitions give their own, in the note's order of its header.
#[derive(Clone, Copy)]
pub struct BucketFields {
    pub size: usize,
    pub count: usize,
    pub free_count: usize,
    pub first_free: usize,
    pub next: Cursor,
}

// The header's fields on the index, and the cursor past them.
#[derive(Clone, Copy)]
pub struct IndexFields {
    pub index_count: usize,
    pub first_index: usize,
    pub offset: usize,
    pub length: usize,
    pub sets: usize,
    pub next: Cursor,
}

// The numbers of a header; zeros and the refusal where it is refused. `sets` is the number of indices.
// No Err: `headed` has the zeros, and `HeaderBounds` holds of refused headers too.
#[derive(Clone, Copy)]
pub struct Header {
    pub size: usize,
    pub count: usize,
    pub free_count: usize,
    pub first_free: usize,
    pub index_count: usize,
    pub first_index: usize,
    pub offset: usize,
    pub length: usize,
    pub sets: usize,
    pub refused: Refusal,
}

// A set of columns: its numbers of entries, of rows in a bucket and of columns; whether its last rows are Int64; and where in the
// text its last rows and its bucket numbers start.
#[derive(Clone, Copy, Default)]
pub struct Set {
    pub entries: usize,
    pub per: usize,
    pub columns: usize,
    pub wide: bool,
    pub lasts: usize,
    pub buckets: usize,
}

// A set, and the cursor past it.
#[derive(Clone, Copy)]
pub struct SetRead {
    pub set: Set,
    pub next: Cursor,
}

// Sets in stored order, and the cursor past them.
// A list of fixed length, since there is no heap.
#[derive(Clone, Copy)]
pub struct Sets {
    pub sets: [Set; 16],
    pub next: Cursor,
}

// The sets of an index text; zeros and the refusal where it is refused.
// No Err: `indexed` has the zeros. A list of fixed length, since there is no heap.
#[derive(Clone, Copy)]
pub struct Index {
    pub sets: [Set; 16],
    pub refused: Refusal,
}

// The bytes that a kept column takes in the buckets of its set, from `start` up to `end`.
// A flag, and no Option: `in_bucket` and `clear` (specs/Map) take every column's extent, and ask it of each.
#[derive(Clone, Copy, Default)]
pub struct Extent {
    pub kept: bool,
    pub set: usize,
    pub start: usize,
    pub end: usize,
}

// What the check of a file tells: the bucket size, and where the set that was asked for stands in the index text; zeros and the
// refusal where it is refused.
// No Err: `checked_as` has the zeros, and `standard::check` promises it of every file.
#[derive(Clone, Copy)]
pub struct Checked {
    pub refused: Refusal,
    pub size: usize,
    pub set: Set,
}

// The number of an entry, and how many last rows were looked at to find it.
#[derive(Clone, Copy)]
pub struct Entry {
    pub at: usize,
    pub looks: usize,
}
