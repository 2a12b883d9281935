// The last rows of a set in the index text: the map's rule for them, and the entry of a row (RULES.md 5.6, 5.8 and 5.9).
ghost use Rattle.std.specs.Prelude.{◌+◌, ◌*◌, ◌≤◌, ◌-◌, length, ◌≡◌};
ghost use Rattle.bytes_at.specs.Number.{bytes_of};
ghost use Rattle.standard_rules.specs.Looks.{bit_length};

use bytes_at::Width;
use standard_rules::Entry;

// The last rows of n entries: numbers of that width from a place on, all of which lie in the text.
#[derive(Clone, Copy)]
pub struct LastRows<'t> {
    pub text: &'t [u8],
    pub at: usize,
    pub n: usize,
    pub big: bool,
    pub width: Width,
    pub ghost inside: { at + n * bytes_of width ≤ length text.now },
}

impl<'t> LastRows<'t> {
    ghost use Rattle.std.specs.Prelude.{◌≤◌, ◌<◌, ◌-◌, ◌≡◌};
    ghost use Rattle.bytes_at.specs.Number.{bytes_of, number_in, numbers_at};
    ghost use Rattle.standard_rules.specs.Map.{covers};
    ghost use Rattle.standard_rules.specs.Looks.{halving_of, bit_length};
    ghost use Rattle.standard_index.specs.Rows.{first_row_in};

    // Number k: the last row of entry k.
    pub fn last_row(self, k: usize) -> usize
        requires { k < self.n }
        ensures { result ≡ number_in self.entry.big (bytes_of self.entry.width) self.entry.text.now self.entry.at k }
    {
        let size = self.width.bytes();
        bytes_at::number(self.text, self.at + k * size, self.big, self.width)
    }

    // Whether they keep to the map's rule, `per` being the rows per bucket and `rows` the row count.
    pub fn fit(self, per: usize, rows: usize) -> bool
        ensures { result ≡ covers rows per 0 (numbers_at self.entry.big (bytes_of self.entry.width) self.entry.text.now self.entry.at self.entry.n) }
    {
        let mut from = 0;
        for k in 0..self.n {
            let last = self.last_row(k);
            if last < from || rows <= last || per <= last - from {
                return false;
            }
            from = last + 1;
        }
        from == rows
    }

    // The entry of a row, by halving. The bit length of the entry count less 1 bounds the search.
    // They are numbers in the text's bytes, which no method of a slice searches.
    pub fn find_entry(self, row: usize) -> Entry
        requires { 0 < self.n }
        ensures value { result ≡ halving_of (numbers_at self.entry.big (bytes_of self.entry.width) self.entry.text.now self.entry.at self.entry.n) row }
        ensures known { (result.at < self.entry.n) × (result.looks ≤ bit_length (self.entry.n - 1)) }
    {
        let most = bit_length(self.n - 1);
        let mut first = 0;
        let mut last = self.n - 1;
        for looks in 0..most {
            if last <= first {
                return Entry { at: first, looks };
            }
            let middle = first + (last - first) / 2;
            let found = self.last_row(middle);
            if row <= found {
                last = middle;
            } else {
                first = middle + 1;
            }
        }
        Entry {
            at: first,
            looks: most,
        }
    }

    // The row's number within entry k, 0 for the entry's first row.
    pub fn local_row(self, k: usize, row: usize) -> usize
        requires { k ≤ self.n }
        ensures { result ≡ row - first_row_in self.entry.big (bytes_of self.entry.width) self.entry.text.now self.entry.at k }
    {
        if k == 0 {
            return row;
        }
        let last = self.last_row(k - 1);
        row.saturating_sub(last).saturating_sub(1)
    }
}

// The fewest bits that hold a number.
pub fn bit_length(n: usize) -> usize
    ensures { result ≡ bit_length n }
{
    (usize::BITS - n.leading_zeros()) as usize
}
