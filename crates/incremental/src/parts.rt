// What the parts of an IncrementalStMan file before its buckets tell, where none of them is refused: the entries of its index
// (RULES.md 6.3), and where its buckets lie.
ghost use Rattle.std.specs.Prelude.{◌≤◌, length};
ghost use Rattle.incremental.specs.Bounds.{IndexInside, BucketsInside, Numbered};

use bytes_at::Width;
use incremental_rules::Index;

// The entries of a file's index, in the table's endianness: both their lists lie in the file.
#[derive(Clone, Copy)]
pub struct Entries<'f> {
    pub file: &'f [u8],
    pub big: bool,
    pub index: Index,
    pub ghost inside: { IndexInside (length file.now) index },
}

// The entries, which are right in a table of so many rows, and the size of the buckets that they name, which lie in the file.
#[derive(Clone, Copy)]
pub struct Parts<'f> {
    pub entries: Entries<'f>,
    pub rows: usize,
    pub size: usize,
    pub ghost size_most: { size ≤ 1048576 },
    pub ghost buckets: { BucketsInside entries.big entries.file.now size entries.index },
    pub ghost numbers: { Numbered rows entries.big entries.file.now entries.index },
}

impl<'f> Entries<'f> {
    ghost use Rattle.std.specs.Prelude.{◌<◌, ◌≡◌};
    ghost use Rattle.incremental_rules.specs.Index.{first_row};
    ghost use Rattle.incremental_rules.specs.Place.{entry_of};

    // The first row of entry i, or the row count at i = count.
    pub fn first_row(self, i: usize) -> usize
        requires { i ≤ self.index.count }
        ensures { result ≡ first_row self.entry.big self.entry.file.now self.entry.index i }
    {
        let x = self.index;
        let width = Width::of_int(x.wide);
        bytes_at::number(self.file, x.firsts + i * width.bytes(), self.big, width)
    }

    // The entry of a row that is below the row count, the last whose first row is not above it, by halving: the first rows rise. They
    // are numbers in the file's bytes, which no method of a slice searches.
    pub fn find_entry(self, row: usize, rows: usize) -> usize
        requires { (Numbered rows self.big self.file.now self.index) × (row < rows) }
        ensures value { result ≡ entry_of self.entry.big self.entry.file.now self.entry.index row }
        ensures known { result < self.entry.index.count }
    {
        let mut first = 0;
        let mut past = self.index.count;
        while first + 1 < past {
            let middle = first + (past - first) / 2;
            let from = self.first_row(middle);
            if row < from {
                past = middle;
            } else {
                first = middle;
            }
        }
        first
    }
}
