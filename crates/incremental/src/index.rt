// The rule for the numbers of an IncrementalStMan's index (RULES.md 6.3): its bucket numbers and its first rows.
ghost use Rattle.std.specs.Prelude.{◌+◌, ◌*◌, ◌≤◌, length, ◌≡◌, ◌++◌};
ghost use Rattle.standard_rules.specs.Index.{links};
ghost use Rattle.bytes_at.specs.Number.{bytes_of, numbers_at};
ghost use Rattle.bytes_at.specs.Lists.{all_apart};
ghost use Rattle.incremental_rules.specs.Index.{firsts_fit, index_fits};
ghost use Rattle.incremental.specs.Bounds.{IndexInside};

use buckets::Buckets;
use buckets::marks::Marks;
use bytes_at::Width;
use incremental_rules::{Header, Index};

// Whether the n buckets whose numbers stand in the file from a place on, in the table's endianness, and the free ones, k from `first`
// on, are in range and all different.
pub fn buckets_apart(b: Buckets, big: bool, from: usize, n: usize, k: usize, first: usize) -> bool
    requires { from + n * 4 ≤ length b.file.now }
    ensures { result ≡ all_apart b.entry.count (numbers_at big 4 b.entry.file.now from n ++ links b.entry.file.now b.entry.size k first) }
{
    let mut marks = Marks::none();
    marks.add_numbers(b.count, b.file, big, from, n) && marks.add_chain(b, k, first)
}

// Whether the n + 1 first rows that stand in the file from a place on begin with 0, rise strictly and end at the row count.
pub fn rows_rise(f: &[u8], big: bool, width: Width, from: usize, n: usize, rows: usize) -> bool
    requires { from + (n + 1) * bytes_of width ≤ length f.now }
    ensures { result ≡ firsts_fit rows (numbers_at big (bytes_of width) f.now from (n + 1)) }
{
    if bytes_at::number(f, from, big, width) != 0 {
        return false;
    }
    let size = width.bytes();
    let mut last = 0;
    for i in 0..n {
        let v = bytes_at::number(f, from + size + i * size, big, width);
        if v <= last {
            return false;
        }
        last = v;
    }
    last == rows
}

// Whether the index is right: its bucket numbers and its first rows.
pub fn index_fits(b: Buckets, big: bool, h: Header, x: Index, rows: usize) -> bool
    requires same { (b.size ≡ h.size) × (b.count ≡ h.count) }
    requires index_inside { IndexInside (length b.file.now) x }
    ensures { result ≡ index_fits rows big b.entry.file.now h x }
{
    let width = Width::of_int(x.wide);
    buckets_apart(b, big, x.buckets, x.count, h.free_count, h.first_free)
        && rows_rise(b.file, big, width, x.firsts, x.count, rows)
}
