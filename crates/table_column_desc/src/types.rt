// The types of columns: what a column type string says, and the bits of a cell (RULES.md 4.3 and 4.5).
ghost use Rattle.std.specs.Prelude.{◌≡◌, ◌≤◌, ◌<◌};
ghost use Rattle.table_rules.specs.ColumnDesc.{column_type_of, cell_bits};

use table_rules::ColumnType;
use table_rules::data_type::DataType;

// What a column type string says: ScalarColumnDesc<T or ArrayColumnDesc<T.
#[tactic(auto, unfolding(table_rules::specs::ColumnDesc::column_type_of))]
pub fn column_type(s: &[u8]) -> ColumnType
    ensures { result ≡ column_type_of s.now }
{
    if let Some(name) = s.strip_prefix(b"ScalarColumnDesc<") {
        ColumnType {
            array: false,
            datatype: DataType::from_name(name),
        }
    } else if let Some(name) = s.strip_prefix(b"ArrayColumnDesc<") {
        ColumnType {
            array: true,
            datatype: DataType::from_name(name),
        }
    } else {
        ColumnType {
            array: false,
            datatype: None,
        }
    }
}

// The bits of a cell.
#[tactic(auto, unfolding(table_rules::specs::ColumnDesc::cell_bits))]
pub fn cell_bits(t: DataType, array: bool, options: usize, elements: usize, maximum: usize) -> usize
    requires { (elements ≤ 1048576) × (maximum ≤ 65536) }
    ensures value { result ≡ cell_bits t array options elements maximum }
    ensures bounded { result < 4294967296 }
{
    let bits = t.element_bits();
    if array && options % 2 != 1 {
        64
    } else if bits != 0 {
        elements * bits
    } else if array || maximum == 0 {
        96
    } else {
        maximum * 8
    }
}
