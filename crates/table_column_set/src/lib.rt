// ColumnSet (RULES.md 4.6 to 4.9; Note 260, 3.1.2): the managers, ColumnInfo, and DMInfo with where each column is kept.
#![tactic(auto)]

pub mod bindings;
pub mod data_managers;
pub mod info;
