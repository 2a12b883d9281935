// Column by name (RULES.md 4.11).
ghost use Rattle.std.specs.Prelude.{◌≡◌};
ghost use Rattle.table_rules.specs.Table.{column_named};

use bytes_at::Refusal;

// The position of the column with a name; 8 where there is none.
pub fn column_by_name(s: &[u8], name: &[u8]) -> Result<usize, Refusal>
    ensures { result ≡ column_named s.now name.now }
{
    let d = crate::describe(s);
    if d.refused.number != 0 {
        return Err(d.refused);
    }
    d.columns[..d.column_count]
        .iter()
        .position(|c| bytes_at::is_at(s, c.start, c.len, name))
        .ok_or(Refusal { number: 8, byte: 0 })
}
