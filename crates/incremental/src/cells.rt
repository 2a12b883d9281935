// The stage of the buckets, which finds the cell that is asked for: all buckets in index order (RULES.md 6.5), or the row's own alone
// (6.7).
ghost use Rattle.std.specs.Prelude.{◌≤◌};

use crate::parts::Parts;
use bytes_at::Refusal;

// The start of a bucket in the file, and the offset of a value in it; zeros while none is found.
#[derive(Clone, Copy)]
pub struct Place {
    pub start: usize,
    pub offset: usize,
    pub ghost start_most: { start ≤ 4503599627371008 },
    pub ghost offset_most: { offset ≤ 1048576 },
}

// The search for a cell: in which file, the bytes of a cell of each column that the file keeps, which of these columns is asked for, and
// the row.
#[derive(Clone, Copy)]
pub struct Search<'f, 'c> {
    pub parts: Parts<'f>,
    pub bytes: &'c [usize],
    pub column: usize,
    pub row: usize,
}

impl Place {
    const NONE: Place = Place {
        start: 0,
        offset: 0,
    };
}

impl<'f, 'c> Search<'f, 'c> {
    ghost use Rattle.std.specs.Prelude.{◌<◌};
    ghost use Rattle.incremental_rules.specs.Check.{bucket_into, search_of};
    ghost use Rattle.incremental_rules.specs.OneBucket.{own_bucket};
    ghost use Rattle.incremental.specs.Check.{found_at, kept_cells};
    ghost use Rattle.incremental.specs.Found.{Tells};

    // Entry i of the index, after what was found so far: its bucket. The row's bucket is the last whose first row is not above it.
    fn read_entry(self, i: usize, found: Place) -> Result<Place, Refusal>
        requires { i < self.parts.entries.index.count }
        ensures { Tells (bucket_into self.entry.parts.entries.big self.entry.parts.entries.file.now self.entry.parts.size self.entry.parts.entries.index (kept_cells self.entry.bytes.now self.entry.column) self.entry.row (found_at found.start found.offset) i) result }
    {
        let entries = self.parts.entries;
        let f = entries.file;
        let big = entries.big;
        let size = self.parts.size;
        let b = bytes_at::uint::<4>(f, entries.index.buckets + i * 4, big);
        let at = 512 + b * size;
        let first = entries.first_row(i);
        let rows = entries.first_row(i + 1).saturating_sub(first);
        let local = self.row.saturating_sub(first);
        let one = incremental_bucket::read_bucket(
            f,
            at,
            size,
            big,
            rows,
            local,
            self.column,
            self.bytes,
        );
        if one.next.refused != 0 {
            return Err(aipsio::refusal(one.next));
        }
        if self.row < first {
            return Ok(found);
        }
        Ok(Place {
            start: at,
            offset: one.value,
        })
    }

    // The buckets in index order, up to the first that is refused.
    pub fn find_in_all(self) -> Result<Place, Refusal>
        ensures { Tells (search_of self.entry.parts.entries.big self.entry.parts.entries.file.now self.entry.parts.size self.entry.parts.entries.index (kept_cells self.entry.bytes.now self.entry.column) self.entry.row) result }
    {
        let mut found = Place::NONE;
        for i in 0..self.parts.entries.index.count {
            found = self.read_entry(i, found)?;
        }
        Ok(found)
    }

    // The row, which is below the row count (9), and then its own bucket.
    pub fn find_in_own(self) -> Result<Place, Refusal>
        ensures { Tells (own_bucket self.entry.parts.rows self.entry.parts.entries.big self.entry.parts.entries.file.now self.entry.parts.size self.entry.parts.entries.index (kept_cells self.entry.bytes.now self.entry.column) self.entry.row) result }
    {
        if self.parts.rows <= self.row {
            return Err(Refusal { number: 9, byte: 0 });
        }
        let i = self.parts.entries.find_entry(self.row, self.parts.rows);
        self.read_entry(i, Place::NONE)
    }
}
