// Where a cell of a StandardStMan file begins, and how many last rows are looked at to find it (RULES.md 5.8 and 5.9).
ghost use Rattle.std.specs.Prelude.{length, ◌≤◌, ◌<◌, ◌≡◌};
ghost use Rattle.standard_index.specs.Bounds.{SetInside};
ghost use Rattle.standard.specs.Bit.{local_by, located_by, no_cell};

use crate::Located;
use bytes_at::Width;
use standard_index::rows::LastRows;
use standard_rules::Set;

// A row's cell in the column at the offset, whose cells have so many bits. The set's lists stand in the text, in the table's
// endianness. A set without entries has no cells, and gives zeros. No sum wraps, however large the row is, since its number within
// its entry is below the rows per bucket.
// Seven parameters, and three clauses on them: docs/EVIDENCE.md names both, and `located_by` takes the same.
pub fn locate(
    text: &[u8],
    big: bool,
    s: Set,
    size: usize,
    offset: usize,
    bits: usize,
    row: usize,
) -> Located
    requires set_inside { SetInside (length text.now) s }
    requires size_bound { (size ≤ 1048576) × (offset < 4294967296) × (bits ≤ 4294967296) }
    requires row_bound { 0 < s.entries → local_by big text.now s row < s.per }
    ensures { (0 < s.entries → result ≡ located_by big text.now s size offset bits row) × (s.entries ≡ 0 → result ≡ no_cell) }
{
    if s.entries == 0 {
        return Located::default();
    }
    // Written out here and in `sets_fit`: a builder would ask the clause `inside` again, and be these five fields.
    let lasts = LastRows {
        text,
        at: s.lasts,
        n: s.entries,
        big,
        width: Width::of_int(s.wide),
    };
    let e = lasts.find_entry(row);
    let b = bytes_at::uint::<4>(text, s.buckets + e.at * 4, big);
    let r = lasts.local_row(e.at, row);
    let first = 8 * (512 + b * size + offset) + r * bits;
    Located {
        first,
        looks: e.looks,
        entries: s.entries,
    }
}
