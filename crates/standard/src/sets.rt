// The sets of a StandardStMan file in its map (RULES.md 5.6): their last rows, and the buckets that are
// in range and all different.
ghost use Rattle.std.specs.Prelude.{ℕ, ◌+◌, ◌*◌, ◌≤◌, ◌<◌, length, get_or, ◌≡◌, true, ◌++◌, map};
ghost use Rattle.bytes_at.specs.Number.{int_bytes};
ghost use Rattle.bytes_at.specs.Lists.{all, all_apart};
ghost use Rattle.buckets.specs.Marks.{all_unmarked, marked};
ghost use Rattle.standard_rules.specs.Index.{links, no_set};
ghost use Rattle.standard_rules.specs.Map.{map_set, set_fits, data_of};

use buckets::Buckets;
use buckets::marks::Marks;
use bytes_at::Width;
use standard_index::rows::LastRows;
use standard_rules::{Header, Set};

// Whether the last rows of each set rise strictly, span no more than the rows per bucket, and end with the row count.
pub fn sets_fit(text: &[u8], big: bool, sets: &[Set], rows: usize) -> bool
    requires { (k : ℕ) → k < length sets.now → (get_or sets.now k no_set).lasts + (get_or sets.now k no_set).entries * int_bytes (get_or sets.now k no_set).wide ≤ length text.now }
    ensures { result ≡ all (set_fits rows) (map (map_set big text.now) sets.now) }
{
    for s in sets {
        // Written out here and in `locate`: a builder would ask the clause `inside` again, and be these five fields.
        let lasts = LastRows {
            text,
            at: s.lasts,
            n: s.entries,
            big,
            width: Width::of_int(s.wide),
        };
        if !lasts.fit(s.per, rows) {
            return false;
        }
    }
    true
}

// Marks the data buckets of the sets.
fn mark_sets(seen: &mut Marks, buckets: Buckets, text: &[u8], big: bool, sets: &[Set]) -> bool
    requires { (k : ℕ) → k < length sets.now → (get_or sets.now k no_set).buckets + (get_or sets.now k no_set).entries * 4 ≤ length text.now }
    ensures { (result ≡ all_unmarked buckets.entry.count seen.old.seen (data_of (map (map_set big text.now) sets.now))) × (result ≡ true → seen.new.seen ≡ marked seen.old.seen (data_of (map (map_set big text.now) sets.now))) }
{
    for s in sets {
        if !seen.add_numbers(buckets.count, text, big, s.buckets, s.entries) {
            return false;
        }
    }
    true
}

// Whether the data buckets of the sets, the index buckets and the free buckets are in range and all different.
pub fn buckets_apart(buckets: Buckets, h: Header, text: &[u8], big: bool, sets: &[Set]) -> bool
    requires { (k : ℕ) → k < length sets.now → (get_or sets.now k no_set).buckets + (get_or sets.now k no_set).entries * 4 ≤ length text.now }
    ensures { result ≡ all_apart buckets.entry.count (data_of (map (map_set big text.now) sets.now) ++ (links buckets.entry.file.now buckets.entry.size h.index_count h.first_index ++ links buckets.entry.file.now buckets.entry.size h.free_count h.first_free)) }
{
    let mut seen = Marks::none();
    if !mark_sets(&mut seen, buckets, text, big, sets) {
        return false;
    }
    if !seen.add_chain(buckets, h.index_count, h.first_index) {
        return false;
    }
    seen.add_chain(buckets, h.free_count, h.first_free)
}
