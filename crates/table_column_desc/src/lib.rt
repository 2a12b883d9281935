// ColumnDesc (RULES.md 4.3 to 4.5; Note 260, 3.1.1): the type string, the fields after the name, and one column after another.
#![tactic(auto)]

pub mod columns;
pub mod layout;
pub mod types;
