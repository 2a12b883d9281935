// The index text of a StandardStMan file, gathered from its index buckets into the lent room (RULES.md 5.3).
ghost use Rattle.std.specs.Prelude.{◌≡◌, ◌≤◌, length, take, true};
ghost use Rattle.standard_rules.specs.Index.{chain_text, chain_holds, offset_ok, offset_text, index_ok, index_text};
ghost use Rattle.standard_rules.specs.Check.{padded};

use buckets::{Buckets, NO_BUCKET};
use standard_rules::Header;

// Fills the text from a chain of count buckets, and tells if the chain is right and holds it. A chain of more buckets than the file
// has is wrong, so that the loop ends soon whatever count is stated.
fn gather_chain(buckets: Buckets, count: usize, first: usize, text: &mut [u8]) -> bool
    ensures { (result ≡ chain_holds buckets.entry.file.now buckets.entry.size buckets.entry.count count first (length text.old)) × (result ≡ true → text.new ≡ take (length text.old) (chain_text buckets.entry.file.now buckets.entry.size count first)) }
{
    if buckets.count < count {
        return false;
    }
    let mut b = first;
    let mut at = 0;
    for _i in 0..count {
        if buckets.count <= b {
            return false;
        }
        let p = buckets.start_of(b);
        let next = bytes_at::uint::<4>(buckets.file, p, true);
        let again = bytes_at::uint::<4>(buckets.file, p + 4, true);
        if next != again {
            return false;
        }
        let n = (text.len() - at).min(buckets.size - 8);
        bytes_at::copy(buckets.file, p + 8, n, text, at);
        at += n;
        b = next;
    }
    b == NO_BUCKET && at == text.len()
}

// Fills the text from an offset in the only index bucket on, and tells if it is there.
#[tactic(auto, unfolding(standard_rules::specs::Index::offset_ok))]
fn gather_bucket(
    buckets: Buckets,
    count: usize,
    first: usize,
    offset: usize,
    text: &mut [u8],
) -> bool
    ensures { (result ≡ offset_ok buckets.entry.size buckets.entry.count count first offset (length text.old)) × (result ≡ true → text.new ≡ offset_text buckets.entry.file.now buckets.entry.size first offset (length text.old)) }
{
    let n = text.len();
    if count != 1 || buckets.count <= first {
        return false;
    }
    if buckets.size < offset || buckets.size - offset < n {
        return false;
    }
    let p = buckets.start_of(first) + offset;
    bytes_at::copy(buckets.file, p, n, text, 0);
    true
}

// Copies the index text that a header points at into the room, zeros after it, and tells if the index buckets are right. Where they
// are not, the room may hold anything.
pub fn gather_index(buckets: Buckets, h: Header, room: &mut [u8]) -> bool
    requires { h.length ≤ length room.old }
    ensures { (result ≡ index_ok buckets.entry.file.now buckets.entry.size buckets.entry.count h.index_count h.first_index h.offset h.length) × (result ≡ true → room.new ≡ padded (length room.old) (index_text buckets.entry.file.now buckets.entry.size h.index_count h.first_index h.offset h.length)) }
{
    room.fill(0);
    let text = &mut room[..h.length];
    if h.offset == 0 {
        return gather_chain(buckets, h.index_count, h.first_index, text);
    }
    gather_bucket(buckets, h.index_count, h.first_index, h.offset, text)
}
