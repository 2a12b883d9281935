// The index text of a StandardStMan file (RULES.md 5.4; Note 260, 3.4.2: Index Buckets).
ghost use Rattle.std.specs.Prelude.{◌≡◌, ◌≤◌, ℕ, ◌<◌, length, get_or};
ghost use Rattle.standard_rules.specs.Index.{ssm_index_at, no_set, sets_at, indexed, index_at};
ghost use Rattle.standard_index.specs.Bounds.{SetInside};

use aipsio_rules::Cursor;
use bytes_at::{Refusal, Width};
use standard_rules::{Index, Set, SetRead, Sets};

// An SSMIndex with its mark.
fn read_set(s: &[u8], c: Cursor) -> SetRead
    ensures { result ≡ ssm_index_at s.now c }
{
    let m = aipsio::numbers::mark(s, c);
    let o = aipsio::objects::open(s, m, b"SSMIndex", 1, 2);
    let entries = aipsio::numbers::uint(s, o.next);
    let per = aipsio::numbers::number(s, entries.next, Width::Four, 1, 8388608);
    let columns = aipsio::numbers::uint(s, per.next);
    let free = aipsio::objects::map(s, columns.next);
    let wide = o.value == 2;
    let width = Width::of_int(wide);
    let lasts = aipsio::objects::row_block(s, free, entries.value, width);
    let buckets = aipsio::objects::block(s, lasts.next, entries.value);
    let next = aipsio::objects::close(buckets.next, m);
    SetRead {
        set: Set {
            entries: entries.value,
            per: per.value,
            columns: columns.value,
            wide,
            lasts: lasts.value,
            buckets: buckets.value,
        },
        next,
    }
}

// n sets from the cursor.
// `n ≤ 16`, here and below, is the bound of a count alone: a type for it would say no more than the clause.
fn read_sets(s: &[u8], c: Cursor, n: usize) -> Sets
    requires { n ≤ 16 }
    ensures { result ≡ sets_at s.now c n }
{
    let mut sets = [Set::default(); 16];
    let mut next = c;
    // By index, as `set_into` has it: set i is put at its place.
    for i in 0..n {
        let read = read_set(s, next);
        sets[i] = read.set;
        next = read.next;
    }
    Sets { sets, next }
}

// The sets, or zeros and the refusal where the cursor is refused.
// No other place needs the zeros, so that they have no name.
#[tactic(auto, unfolding(standard_rules::specs::Index::indexed))]
fn answer_index(c: Cursor, all: Sets) -> Index
    ensures { result ≡ indexed c all }
{
    if c.refused != 0 {
        return Index {
            sets: [Set::default(); 16],
            refused: aipsio::refusal(c),
        };
    }
    let sets = all.sets;
    Index {
        sets,
        refused: Refusal { number: 0, byte: 0 },
    }
}

// The n sets of an index text, in a table of the endianness given. Where it is not refused, the lists of each set lie in it.
pub fn read_index(text: &[u8], big: bool, n: usize) -> Index
    requires { n ≤ 16 }
    ensures value { result ≡ index_at text.now big n }
    ensures inside { result.refused.number ≡ 0 → (k : ℕ) → k < n → SetInside (length text.now) (get_or result.sets k no_set) }
{
    let start = Cursor {
        at: 0,
        end: text.len(),
        big,
        refused: 0,
    };
    let all = read_sets(text, start, n);
    let end = all.next;
    let at = end.at;
    let e = aipsio::judge(end, at, at == end.end, 7);
    answer_index(e, all)
}
