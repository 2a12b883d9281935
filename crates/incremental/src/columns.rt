// The columns that an IncrementalStMan keeps, and the bytes of their cells (RULES.md 6.4).
ghost use Rattle.std.specs.Prelude.{◌≡◌, ◌≤◌, length};
ghost use Rattle.incremental_rules.specs.Bucket.{cell_bytes, cells_in};

use incremental_rules::Cells;
use table_rules::data_type::DataType;
use table_rules::{Binding, Column};

// The whole bytes of a cell, 0 for a String.
pub fn cell_bytes(c: &Column) -> usize
    ensures { result ≡ cell_bytes c.now }
{
    if c.datatype.number == DataType::STRING.number {
        return 0;
    }
    (c.bits as usize).div_ceil(8)
}

// Of the columns, those that are bound to the manager with the sequence number, and which of them is at the position.
pub fn gather_cells(
    columns: &[Column],
    bindings: &[Binding],
    sequence: usize,
    position: usize,
) -> Cells
    requires { (length columns.now ≤ 64) × (length bindings.now ≡ length columns.now) }
    ensures value { result ≡ cells_in columns.now bindings.now (length columns.now) sequence position }
    ensures few { result.count ≤ 64 }
{
    let mut cells = Cells {
        bytes: [0; 64],
        count: 0,
        column: 64,
    };
    for (k, (c, b)) in columns.iter().zip(bindings).enumerate() {
        if b.sequence as usize == sequence {
            cells.bytes[cells.count] = cell_bytes(c);
            if k == position {
                cells.column = cells.count;
            }
            cells.count += 1;
        }
    }
    cells
}
