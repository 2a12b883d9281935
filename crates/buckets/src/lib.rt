// The buckets of a data manager's file (RULES.md 5.2), the free list among them (5.5), and marks for those that were met.
#![tactic(auto)]

pub mod file;
pub mod marks;

ghost use Rattle.std.specs.Prelude.{◌≡◌, ◌≤◌, ◌<◌, ◌+◌, ◌*◌};
ghost use Rattle.buckets.specs.Area.{Area};
ghost use Rattle.standard_rules.specs.Header.{bucket_start};

// "-1": the link of a chain's last bucket.
pub const NO_BUCKET: usize = 4294967295;

// The first byte of bucket b of nb, in a file of len bytes.
pub fn start_of(size: usize, nb: usize, b: usize, len: usize) -> usize
    requires { (b < nb) × (512 + nb * size ≤ len) }
    ensures { (result ≡ bucket_start size b) × (result + size ≤ len) }
{
    512 + b * size
}

// The buckets of a file, which all lie in it: their size in bytes and their number.
#[derive(Clone, Copy)]
pub struct Buckets<'f> {
    pub file: &'f [u8],
    pub size: usize,
    pub count: usize,
    pub ghost area: { Area file.now size count },
}

impl<'f> Buckets<'f> {
    ghost use Rattle.std.specs.Prelude.{◌≡◌, ◌≤◌, ◌<◌, ◌+◌, length, IfSome, is_some};
    ghost use Rattle.standard_rules.specs.Header.{bucket_start};
    ghost use Rattle.standard_rules.specs.Check.{long_enough};
    ghost use Rattle.standard_rules.specs.Index.{next_of, free_ok};

    // None where the file is too short for them.
    pub fn of(file: &'f [u8], size: usize, count: usize) -> Option<Self>
        requires { (16 ≤ size) × (size ≤ 1048576) × (count ≤ 4096) }
        ensures held { is_some result ≡ long_enough (length file.now) size count }
        ensures same { IfSome result (λ b. (b.file.now ≡ file.now) × (b.size ≡ size) × (b.count ≡ count)) }
    {
        if !file::long_enough(file.len(), size, count) {
            return None;
        }
        Some(Buckets { file, size, count })
    }

    // The first byte of bucket b.
    pub fn start_of(self, b: usize) -> usize
        requires { b < self.count }
        ensures { (result ≡ bucket_start self.entry.size b) × (result + self.entry.size ≤ length self.entry.file.now) }
    {
        start_of(self.size, self.count, b, self.file.len())
    }

    // Where the buckets end.
    pub fn end(self) -> usize
        ensures { (result ≡ bucket_start self.entry.size self.entry.count) × (result ≤ length self.entry.file.now) }
    {
        512 + self.count * self.size
    }

    // The number of the bucket after bucket b in its chain, big endian in every table.
    pub fn next_of(self, b: usize) -> usize
        requires { b < self.count }
        ensures { result ≡ next_of self.entry.file.now self.entry.size b }
    {
        bytes_at::uint::<4>(self.file, self.start_of(b), true)
    }

    // Whether the free list from bucket `first` on has exactly n buckets, all in range, and -1 ends it. A list of more buckets than
    // the file has is wrong, so that the loop ends soon whatever n is.
    pub fn free_list_ok(self, n: usize, first: usize) -> bool
        ensures { result ≡ free_ok self.entry.file.now self.entry.size self.entry.count n first }
    {
        if self.count < n {
            return false;
        }
        let mut b = first;
        for _i in 0..n {
            if self.count <= b {
                return false;
            }
            b = self.next_of(b);
        }
        b == NO_BUCKET
    }
}
