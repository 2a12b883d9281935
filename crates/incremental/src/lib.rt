// The check of an IncrementalStMan file, whole or of the row's bucket alone, which in the same pass finds the cell that is asked for
// (RULES.md 6.5 and 6.7).
#![tactic(auto)]

pub mod cells;
pub mod columns;
pub mod header;
pub mod index;
pub mod parts;
pub mod text;

ghost use Rattle.std.specs.Prelude.{◌≤◌, ◌≡◌, IfOk, IfErr};
ghost use Rattle.incremental.specs.Check.{refused_file, PartsRead, Refused};
ghost use Rattle.incremental_rules.specs.Check.{before_buckets};
ghost use Rattle.incremental_rules.specs.OneBucket.{checked_by};

use crate::cells::Search;
use crate::parts::{Entries, Parts};
use bytes_at::Refusal;
use incremental_rules::Checked;
use table_rules::Description;

// A refused file: the refusal and zeros.
#[tactic(auto, unfolding(crate::specs::Check::refused_file))]
fn refuse(why: Refusal) -> Checked
    ensures { result ≡ refused_file why }
{
    Checked {
        refused: why,
        size: 0,
        first: 0,
    }
}

// The parts before the buckets, after the refusal so far, in a table of so many rows: header, length, index object, free chain,
// bucket numbers and first rows. Both checks begin with them.
fn read_parts<'f>(
    f: &'f [u8],
    big: bool,
    rows: usize,
    refused: Refusal,
) -> Result<Parts<'f>, Refusal>
    ensures read { IfOk result (λ p. PartsRead rows big f.now refused p.size p.entries.index) }
    ensures same { IfOk result (λ p. (p.entries.file.now ≡ f.now) × (p.entries.big ≡ big) × (p.rows ≡ rows)) }
    ensures refused { IfErr result (λ why. Refused why (before_buckets rows big f.now refused)) }
{
    let h = crate::header::read_header(f, big);
    let b = buckets::file::after_header(refused, h.refused, f, h.size, h.count)?;
    let x = crate::text::read_index(f, big, b.end());
    if x.refused.number != 0 {
        return Err(x.refused);
    }
    if !b.free_list_ok(h.free_count, h.first_free) {
        return Err(Refusal {
            number: 10,
            byte: 0,
        });
    }
    if !crate::index::index_fits(b, big, h, x, rows) {
        return Err(Refusal {
            number: 11,
            byte: 0,
        });
    }
    let entries = Entries {
        file: f,
        big,
        index: x,
    };
    Ok(Parts {
        entries,
        rows,
        size: h.size,
    })
}

// The check of the file of the manager with a sequence number, after the refusal so far, where the cell at a position and a row
// is asked for: of all buckets, or of the row's own. Any position and row may be given; in what the check of all buckets refuses they
// do not count. Which check it is comes with the question (`Request::own`), and `checked_by` takes it: a closure would be chosen by the
// same test, one crate above.
pub fn check(
    d: &Description,
    f: &[u8],
    sequence: usize,
    refused: Refusal,
    position: usize,
    row: usize,
    own: bool,
) -> Checked
    requires { d.now.column_count ≤ 64 }
    ensures { result ≡ checked_by own d.now sequence f.now refused position row }
{
    let parts = match read_parts(f, d.big, d.rows, refused) {
        Ok(parts) => parts,
        Err(why) => return refuse(why),
    };
    let n = d.column_count;
    let cells = crate::columns::gather_cells(&d.columns[..n], &d.bindings[..n], sequence, position);
    let search = Search {
        parts,
        bytes: &cells.bytes[..cells.count],
        column: cells.column,
        row,
    };
    let found = if own {
        search.find_in_own()
    } else {
        search.find_in_all()
    };
    match found {
        Ok(place) => Checked {
            refused: Refusal { number: 0, byte: 0 },
            size: parts.size,
            first: 8 * (place.start + 4 + place.offset),
        },
        Err(why) => refuse(why),
    }
}
