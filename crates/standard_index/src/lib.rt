// The header and the index of a StandardStMan file (RULES.md 5.1 to 5.4; Note 260, 3.4.2): the header, the index text gathered
// from its buckets, the sets in it, and the last rows of a set.
#![tactic(auto)]

pub mod chain;
pub mod header;
pub mod rows;
pub mod text;
