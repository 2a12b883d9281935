// The rules of IncrementalStMan files (RULES.md 6; Note 260, 3.4.3), as definitions over the bytes: `specs/`, in
// the chapter's order; what both managers share stands in `standard_rules`. Here stand the types that they speak of. The code that
// follows them is in `incremental_bucket` and `incremental`.
#![tactic(auto)]

use aipsio_rules::Cursor;
use bytes_at::Refusal;

// The header's fields, and the cursor past them.
// StandardStMan's `BucketFields` is another record: each manager's definitions give their own, in the note's order of its header.
#[derive(Clone, Copy)]
pub struct HeaderFields {
    pub size: usize,
    pub count: usize,
    pub free_count: usize,
    pub first_free: usize,
    pub next: Cursor,
}

// The numbers of a header; zeros and the refusal where it is refused.
// No Err: `headed` has the zeros, and `HeaderBounds` holds of refused headers too.
#[derive(Clone, Copy)]
pub struct Header {
    pub size: usize,
    pub count: usize,
    pub free_count: usize,
    pub first_free: usize,
    pub refused: Refusal,
}

// The index of a file: the number of its entries, whether its first rows are Int64, and where in the file its first rows, one more
// than entries, and its bucket numbers start; zeros and the refusal where it is refused.
// No Err: `indexed` has the zeros.
#[derive(Clone, Copy)]
pub struct Index {
    pub count: usize,
    pub wide: bool,
    pub firsts: usize,
    pub buckets: usize,
    pub refused: Refusal,
}

// The columns that a file keeps, in table order: the bytes of a cell of each, 0 for a String, whose offset alone is judged; how
// many they are; and which of them is asked for, 64 where it is none.
// A list with its length beside it, and 64 for no column: there is no heap, and `cells_in` (specs/Bucket) has both.
#[derive(Clone, Copy)]
pub struct Cells {
    pub bytes: [usize; 64],
    pub count: usize,
    pub column: usize,
}

// The beginning of a bucket: whether its starts are Int64, how long its data part is, and the cursor at its index part; zeros where
// the cursor is refused.
#[derive(Clone, Copy)]
pub struct BucketHead {
    pub wide: bool,
    pub len: usize,
    pub next: Cursor,
}

// The starts of a column's values: the last one, and which is the last that is not above the row; zeros where the cursor is
// refused.
#[derive(Clone, Copy)]
pub struct Starts {
    pub last: usize,
    pub hit: usize,
    pub next: Cursor,
}

// Where the bucket of the row that is asked for starts, and the offset of the row's value in the column; zeros and the refusal
// where a bucket is refused.
// No Err: `search_of` and `own_bucket` have the zeros, and theorems speak of both.
#[derive(Clone, Copy)]
pub struct Found {
    pub start: usize,
    pub offset: usize,
    pub refused: Refusal,
}

// What the check of a file tells: the bucket size, and the first bit of the cell that is asked for; zeros and the refusal where
// it is refused.
// No Err: `checked_by` has the zeros, and `incremental::check` promises it of every file.
#[derive(Clone, Copy)]
pub struct Checked {
    pub refused: Refusal,
    pub size: usize,
    pub first: usize,
}
