// The index object of an IncrementalStMan file (RULES.md 6.2; Note 260, 3.4.3: Bucket Index).
ghost use Rattle.std.specs.Prelude.{◌≡◌, length};
ghost use Rattle.incremental_rules.specs.Index.{indexed, index_at};
ghost use Rattle.incremental.specs.Bounds.{IndexInside};

use aipsio_rules::Cursor;
use bytes_at::{Refusal, Width};
use incremental_rules::Index;

// The index, or zeros and the refusal where the cursor is refused. A constant for the zeros would be used once.
fn answer_index(c: Cursor, count: usize, wide: bool, firsts: usize, buckets: usize) -> Index
    ensures { result ≡ indexed c count wide firsts buckets }
{
    if c.refused != 0 {
        return Index {
            count: 0,
            wide: false,
            firsts: 0,
            buckets: 0,
            refused: aipsio::refusal(c),
        };
    }
    Index {
        count,
        wide,
        firsts,
        buckets,
        refused: Refusal { number: 0, byte: 0 },
    }
}

// The ISMIndex with its mark, from a place of the file on, in a table of the endianness given. Where it is not refused, both its
// lists lie in the file.
pub fn read_index(f: &[u8], big: bool, at: usize) -> Index
    ensures value { result ≡ index_at f.now big at }
    ensures inside { result.refused.number ≡ 0 → IndexInside (length f.now) result }
{
    let start = Cursor {
        at,
        end: f.len(),
        big,
        refused: 0,
    };
    let m = aipsio::numbers::mark(f, start);
    let o = aipsio::objects::open(f, m, b"ISMIndex", 1, 2);
    let n = aipsio::numbers::uint(f, o.next);
    let wide = o.value == 2;
    let width = Width::of_int(wide);
    let firsts = aipsio::objects::row_block(f, n.next, n.value + 1, width);
    let buckets = aipsio::objects::block(f, firsts.next, n.value);
    let e = aipsio::objects::close(buckets.next, m);
    answer_index(e, n.value, wide, firsts.value, buckets.value)
}
