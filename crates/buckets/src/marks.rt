// Bucket numbers that are in range and all different, decided by a table with a mark for each bucket that was met
// (RULES.md 5.6 and 6.3). Where a method answers false, nothing is said of the table.
use crate::Buckets;

// Bytes, and as many as a file can have buckets: `marked` (specs/Marks) speaks of lists of numbers, and there is no heap.
// Drop, since a caller that has its answer lets the table go.
#[derive(Drop)]
pub struct Marks {
    pub seen: [u8; 4096],
}

impl Marks {
    ghost use Rattle.std.specs.Prelude.{◌≤◌, ◌+◌, ◌*◌, ◌≡◌, true, set, length, replicate};
    ghost use Rattle.buckets.specs.Marks.{is_unmarked, all_unmarked, marked};
    ghost use Rattle.bytes_at.specs.Number.{numbers_at};
    ghost use Rattle.standard_rules.specs.Index.{links};

    // No marks.
    pub fn none() -> Self
        ensures { result.seen ≡ replicate 4096 0 }
    {
        Marks { seen: [0; 4096] }
    }

    // Marks bucket b of `count`, and tells if it is in range and had no mark.
    #[tactic(auto, unfolding(crate::specs::Marks::is_unmarked))]
    pub fn add(&mut self, count: usize, b: usize) -> bool
        requires { count ≤ 4096 }
        ensures { (result ≡ is_unmarked count self.old.seen b) × (result ≡ true → self.new.seen ≡ set self.old.seen b 1) }
    {
        let fresh = b < count && self.seen[b] == 0;
        if fresh {
            self.seen[b] = 1;
        }
        fresh
    }

    // Marks the n buckets, of `count`, whose numbers stand in the text from `from` on, in a table of the endianness given.
    pub fn add_numbers(
        &mut self,
        count: usize,
        text: &[u8],
        big: bool,
        from: usize,
        n: usize,
    ) -> bool
        requires { (count ≤ 4096) × (from + n * 4 ≤ length text.now) }
        ensures { (result ≡ all_unmarked count self.old.seen (numbers_at big 4 text.now from n)) × (result ≡ true → self.new.seen ≡ marked self.old.seen (numbers_at big 4 text.now from n)) }
    {
        for i in 0..n {
            if !self.add(count, bytes_at::uint_there::<4>(text, from + i * 4, big)) {
                return false;
            }
        }
        true
    }

    // Marks the n buckets of a chain from bucket `first` on. It stops at the first that has a mark, and so after at most count + 1.
    pub fn add_chain(&mut self, buckets: Buckets, n: usize, first: usize) -> bool
        ensures { (result ≡ all_unmarked buckets.entry.count self.old.seen (links buckets.entry.file.now buckets.entry.size n first)) × (result ≡ true → self.new.seen ≡ marked self.old.seen (links buckets.entry.file.now buckets.entry.size n first)) }
    {
        let mut b = first;
        for _i in 0..n {
            if !self.add(buckets.count, b) {
                return false;
            }
            b = buckets.next_of(b);
        }
        true
    }
}
