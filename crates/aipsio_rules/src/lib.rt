// The rules of AipsIO (RULES.md 3; Note 260, 2), as definitions over the bytes: `specs/`. Here stand the types that they speak
// of. The code that follows them is in `aipsio`.
#![tactic(auto)]

// Where the next field begins, where the enclosing object ends, whether the byte order is big endian, and the refusal number: 0
// while there is none. After a refusal `at` is where the failing field begins, the byte of the refusal.
// No Result: each read promises to give a refused cursor back as it is (`latched`, specs/Field), so that reads follow without a test.
#[derive(Clone, Copy)]
pub struct Cursor {
    pub at: usize,
    pub end: usize,
    pub big: bool,
    pub refused: usize,
}

// A number that was read, 0 where the cursor is refused, and the cursor past it.
// What else is read has its own record with a cursor: a generic one would call it `value` alone, in the definitions too.
#[derive(Clone, Copy)]
pub struct Value {
    pub value: usize,
    pub next: Cursor,
}

// The bytes of a String, as a place in the file (zeros where the cursor is refused), and the cursor past it.
#[derive(Clone, Copy)]
pub struct Text {
    pub start: usize,
    pub len: usize,
    pub next: Cursor,
}
