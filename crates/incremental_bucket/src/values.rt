// The values of one column in a bucket of an IncrementalStMan file (RULES.md 6.4; Note 260, 3.4.3: Data Bucket):
// their starts, and what reading their offsets shares with that.
ghost use Rattle.std.specs.Prelude.{◌≡◌, ◌≤◌, length};
ghost use Rattle.bytes_at.specs.Number.{bytes_of};
ghost use Rattle.incremental_bucket.specs.Values.{refused_value};
ghost use Rattle.incremental_rules.specs.Bucket.{start_fits, starts_at};

use crate::InBucket;
use aipsio_rules::{Cursor, Value};
use bytes_at::Width;
use incremental_rules::Starts;

// Nothing was read: the field that begins at `from` is refused with the number.
pub fn refuse(c: Cursor, from: usize, number: usize) -> Value
    ensures { result ≡ refused_value c from number }
{
    Value {
        value: 0,
        next: aipsio::refuse(c, from, number),
    }
}

// Whether start i of a column may follow the last one, in a bucket of so many rows.
#[tactic(auto, unfolding(incremental_rules::specs::Bucket::start_fits))]
fn start_fits(i: usize, last: usize, v: usize, rows: usize) -> bool
    ensures { result ≡ start_fits i last v rows }
{
    v < rows && (if i == 0 { v == 0 } else { last < v })
}

// The n starts of a column, of N bytes each, up to the first that is refused. No more are looked at than the bucket has room for,
// whatever n is.
fn starts_of<const N: usize>(s: &[u8], c: Cursor, b: InBucket, n: usize) -> Starts
    requires size { (1 ≤ N) × (N ≤ 8) }
    requires inside { c.end ≤ length s.now }
    ensures value { result ≡ starts_at s.now c N n b.rows b.row }
    ensures inside { result.next.end ≡ c.end }
{
    if c.refused != 0 {
        return Starts {
            last: 0,
            hit: 0,
            next: c,
        };
    }
    let m = n.min(aipsio::left(c) / N);
    // `at` goes on beside `i`: behind the loop it is where the refusal and the cursor stand; else its formula would stand twice.
    let mut at = c.at;
    let mut last = 0;
    let mut hit = 0;
    for i in 0..m {
        let v = bytes_at::uint_there::<N>(s, at, c.big);
        if !start_fits(i, last, v, b.rows) {
            return Starts {
                last: 0,
                hit: 0,
                next: aipsio::refuse(c, at, 11),
            };
        }
        if v <= b.row {
            hit = i;
        }
        last = v;
        at += N;
    }
    if m < n {
        return Starts {
            last: 0,
            hit: 0,
            next: aipsio::refuse(c, at, 1),
        };
    }
    Starts {
        last,
        hit,
        next: Cursor { at, ..c },
    }
}

// The n starts of a column, of the bucket's width, which is asked once and not for each start.
pub fn read_starts(s: &[u8], c: Cursor, b: InBucket, n: usize) -> Starts
    requires { c.end ≤ length s.now }
    ensures value { result ≡ starts_at s.now c (bytes_of b.width) n b.rows b.row }
    ensures inside { result.next.end ≡ c.end }
{
    match b.width {
        Width::One => starts_of::<1>(s, c, b, n),
        Width::Two => starts_of::<2>(s, c, b, n),
        Width::Four => starts_of::<4>(s, c, b, n),
        Width::Eight => starts_of::<8>(s, c, b, n),
    }
}
