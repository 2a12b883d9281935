// The columns of a StandardStMan file in its map (RULES.md 5.6): the sets that they name, how many each
// set has, and their extents in the bucket.
ghost use Rattle.std.specs.Prelude.{◌≡◌, ℕ, ◌≤◌, ◌<◌, length, get_or, List, ◌&&◌, ltb};
ghost use Rattle.standard.specs.Columns.{one_more, Counted, counts_fit, per_of, extent_by, columns_test};
ghost use Rattle.standard_rules.specs.Map.{MapColumn, map_column, columns_of, in_bucket};
ghost use Rattle.standard_rules.specs.Index.{no_set};
ghost use Rattle.bytes_at.specs.Lists.{◌⇒◌};

use standard_rules::{Extent, Set};
use table_rules::{Binding, Column, Description};

// One more at place k of a list of counts, where the column is kept; `one_more` (specs/Columns) takes the flag.
// The counts are lent as the array that they are, here and below: a slice would need its 16 in a clause of its own.
fn one_more(counts: &mut [usize; 16], kept: bool, k: usize)
    requires { (length counts.old ≡ 16) × ((j : ℕ) → get_or counts.old j 0 ≤ 64) }
    ensures { counts.new ≡ one_more kept k counts.old }
{
    if kept && k < 16 {
        counts[k] += 1;
    }
}

// Whether the column count of each set is the one counted, whatever columns are so counted.
fn counts_fit(counts: &[usize; 16], sets: &[Set]) -> bool
    requires { length sets.now ≤ 16 }
    ensures { (l : List MapColumn) → Counted counts.now l → result ≡ counts_fit l 0 sets.now }
{
    counts.iter().zip(sets.iter()).all(|(n, s)| *n == s.columns)
}

// The bytes that a column takes in the buckets of its set, in the file of the manager with the sequence number.
fn extent_of(column: Column, binding: Binding, sequence: usize, sets: &[Set]) -> Extent
    requires { (k : ℕ) → k < length sets.now → (get_or sets.now k no_set).per ≤ 8388608 }
    ensures { result ≡ extent_by (per_of sets.now) (map_column sequence column binding) }
{
    let set = binding.set;
    let start = binding.offset as usize;
    let per = if set < sets.len() { sets[set].per } else { 0 };
    Extent {
        kept: binding.sequence as usize == sequence,
        set,
        start,
        end: crate::extents::extent_end(start, per, column.bits as usize),
    }
}

// Whether a column is kept elsewhere, or names one of m sets and ends within the bucket.
#[tactic(auto, unfolding(standard_rules::specs::Map::in_bucket))]
fn extent_fits(x: Extent, m: usize, size: usize) -> bool
    ensures { result ≡ ((x.kept ⇒ ltb x.set m) && in_bucket size x) }
{
    !x.kept || x.set < m && x.end <= size
}

// Whether the columns of a file are right: every kept column names one of the sets and lies in the bucket, the column count of each
// set agrees with DMInfo, and no two extents of one set meet.
pub fn columns_fit(d: &Description, sequence: usize, sets: &[Set], size: usize) -> bool
    requires { (d.now.column_count ≤ 64) × (length sets.now ≤ 16) × ((k : ℕ) → k < length sets.now → (get_or sets.now k no_set).per ≤ 8388608) }
    ensures { result ≡ columns_test (columns_of d.now sequence) sets.now size }
{
    let n = d.column_count;
    let mut counts = [0usize; 16];
    let mut extents = [Extent::default(); 64];
    // By index: columns and bindings are two lists of the description, and extent i goes to its place.
    for i in 0..n {
        let x = extent_of(d.columns[i], d.bindings[i], sequence, sets);
        if !extent_fits(x, sets.len(), size) {
            return false;
        }
        extents[i] = x;
        one_more(&mut counts, x.kept, x.set);
    }
    if !counts_fit(&counts, sets) {
        return false;
    }
    crate::extents::all_apart(&extents[..n])
}
