// The check of a StandardStMan file (RULES.md 5.7), and where its cells begin.
#![tactic(auto)]

pub mod columns;
pub mod extents;
pub mod place;
pub mod sets;

ghost use Rattle.std.specs.Prelude.{◌≡◌, ℕ, ◌≤◌, ◌<◌, length, get_or, map};
ghost use Rattle.standard.specs.Check.{refused_file};
ghost use Rattle.standard_rules.specs.Index.{no_set, index_text_of};
ghost use Rattle.standard_index.specs.Bounds.{SetInside};
ghost use Rattle.standard_rules.specs.Map.{fits, map_set, map_from, columns_of};
ghost use Rattle.standard_rules.specs.Check.{padded, checked_as};
ghost use Rattle.standard_rules.specs.Header.{header_at};

use buckets::Buckets;
use bytes_at::Refusal;
use standard_rules::{Checked, Header, Set};
use table_rules::Description;

// A cell: its first bit, how many last rows were looked at to find it, and how many its set has.
#[derive(Clone, Copy, Default)]
pub struct Located {
    pub first: usize,
    pub looks: usize,
    pub entries: usize,
}

// A refused file: the refusal and zeros, as `check` promises them. A Result inside it would only add a second function that turns it
// into these.
#[tactic(auto, unfolding(crate::specs::Check::refused_file))]
fn refuse(number: usize, byte: usize) -> Checked
    ensures { result ≡ refused_file (record { number = number; byte = byte }) }
{
    Checked {
        refused: Refusal { number, byte },
        size: 0,
        set: Set::default(),
    }
}

// Whether the map of rows, buckets and columns is right.
// That a set's lists lie in the text is a clause, here and below, and no ghost field of `Set`: `sets_at` makes Sets of every text, refused ones too.
fn map_fits(
    d: &Description,
    sequence: usize,
    buckets: Buckets,
    h: Header,
    text: &[u8],
    sets: &[Set],
) -> bool
    requires few { (d.now.column_count ≤ 64) × (length sets.now ≤ 16) }
    requires same { (buckets.size ≡ h.size) × (buckets.count ≡ h.count) }
    requires inside { (k : ℕ) → k < length sets.now → SetInside (length text.now) (get_or sets.now k no_set) }
    ensures { result ≡ fits (map_from d.now.rows (columns_of d.now sequence) buckets.entry.file.now h (map (map_set d.now.big text.now) sets.now)) }
{
    crate::sets::sets_fit(text, d.big, sets, d.rows)
        && crate::columns::columns_fit(d, sequence, sets, h.size)
        && crate::sets::buckets_apart(buckets, h, text, d.big, sets)
}

// The check of the file of the manager with a sequence number, after the refusal so far, where set k is asked for. Where nothing is
// refused, the room holds the index text, then zeros; where something is, it may hold anything.
pub fn check(
    d: &Description,
    sequence: usize,
    f: &[u8],
    refused: Refusal,
    k: usize,
    room: &mut [u8],
) -> Checked
    requires { d.now.column_count ≤ 64 }
    ensures { (result ≡ checked_as d.now sequence f.now refused k (length room.old)) × (result.refused.number ≡ 0 → room.new ≡ padded (length room.old) (index_text_of f.now (header_at f.now d.now.big))) }
{
    let h = standard_index::header::read_header(f, d.big);
    let buckets = match buckets::file::after_header(refused, h.refused, f, h.size, h.count) {
        Ok(buckets) => buckets,
        Err(why) => return refuse(why.number, why.byte),
    };
    if room.len() < h.length {
        return refuse(13, 0);
    }
    if !standard_index::chain::gather_index(buckets, h, room) {
        return refuse(10, 0);
    }
    let text = &room[..h.length];
    let index = standard_index::text::read_index(text, d.big, h.sets);
    if index.refused.number != 0 {
        return refuse(index.refused.number, index.refused.byte);
    }
    if !buckets.free_list_ok(h.free_count, h.first_free) {
        return refuse(10, 0);
    }
    if !map_fits(d, sequence, buckets, h, text, &index.sets[..h.sets]) {
        return refuse(11, 0);
    }
    Checked {
        refused: Refusal { number: 0, byte: 0 },
        size: h.size,
        set: if k < 16 {
            index.sets[k]
        } else {
            Set::default()
        },
    }
}
