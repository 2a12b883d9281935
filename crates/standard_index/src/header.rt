// The header of a StandardStMan file (RULES.md 5.1; Note 260, 3.4.2: Header).
ghost use Rattle.std.specs.Prelude.{◌≡◌, ◌<◌};
ghost use Rattle.standard_rules.specs.Header.{bucket_fields_at, offset_fits, index_fields_at, headed, header_at, HeaderBounds};
ghost use Rattle.standard_index.specs.Bounds.{HeaderWords};

use aipsio_rules::Cursor;
use bytes_at::{Refusal, Width};
use standard_rules::{BucketFields, Header, IndexFields};

// From the object's header to the first free bucket. IncrementalStMan's header has another name, other versions and one field more: one
// function for both would switch on that field.
fn read_bucket_fields(s: &[u8], c: Cursor) -> BucketFields
    ensures value { result ≡ bucket_fields_at s.now c }
    ensures words { (result.free_count < 4294967296) × (result.first_free < 4294967296) }
{
    let o = aipsio::objects::open(s, c, b"StandardStMan", 3, 4);
    let flag = aipsio::numbers::flag(s, o.next);
    let same = buckets::file::same_endian(flag.value, c.big);
    let d = aipsio::judge(flag.next, o.next.at, same, 6);
    let size = aipsio::numbers::number(s, d, Width::Four, 16, 1048576);
    let count = aipsio::numbers::number(s, size.next, Width::Four, 0, 4096);
    let cache = aipsio::numbers::uint(s, count.next);
    let free = aipsio::numbers::uint(s, cache.next);
    let first = aipsio::numbers::uint(s, free.next);
    BucketFields {
        size: size.value,
        count: count.value,
        free_count: free.value,
        first_free: first.value,
        next: first.next,
    }
}

// An index that is not a chain of buckets begins at byte 8 of its bucket or after.
fn offset_fits(offset: usize) -> bool
    ensures { result ≡ offset_fits offset }
{
    offset == 0 || 8 <= offset
}

// From the number of index buckets to the number of indices.
fn read_index_fields(s: &[u8], c: Cursor) -> IndexFields
    ensures value { result ≡ index_fields_at s.now c }
    ensures words { (result.index_count < 4294967296) × (result.first_index < 4294967296) × (result.offset < 4294967296) }
{
    let count = aipsio::numbers::uint(s, c);
    let first = aipsio::numbers::uint(s, count.next);
    let offset = aipsio::numbers::uint(s, first.next);
    let ok = offset_fits(offset.value);
    let d = aipsio::judge(offset.next, first.next.at, ok, 4);
    let heap = aipsio::numbers::uint(s, d);
    let len = aipsio::numbers::number(s, heap.next, Width::Four, 1, 65536);
    let sets = aipsio::numbers::number(s, len.next, Width::Four, 1, 16);
    IndexFields {
        index_count: count.value,
        first_index: first.value,
        offset: offset.value,
        length: len.value,
        sets: sets.value,
        next: sets.next,
    }
}

// The header, or zeros and the refusal where the cursor is refused. No other place needs the zeros, so that they have no name.
#[tactic(auto, unfolding(standard_rules::specs::Header::headed))]
fn answer_header(c: Cursor, b: BucketFields, i: IndexFields) -> Header
    ensures { result ≡ headed c b i }
{
    if c.refused != 0 {
        return Header {
            size: 0,
            count: 0,
            free_count: 0,
            first_free: 0,
            index_count: 0,
            first_index: 0,
            offset: 0,
            length: 0,
            sets: 0,
            refused: aipsio::refusal(c),
        };
    }
    Header {
        size: b.size,
        count: b.count,
        free_count: b.free_count,
        first_free: b.first_free,
        index_count: i.index_count,
        first_index: i.first_index,
        offset: i.offset,
        length: i.length,
        sets: i.sets,
        refused: Refusal { number: 0, byte: 0 },
    }
}

// The header of a file, in a table of the endianness given, which is the header's own.
pub fn read_header(f: &[u8], big: bool) -> Header
    ensures value { result ≡ header_at f.now big }
    ensures bounded { HeaderBounds result }
    ensures words { HeaderWords result }
{
    let room = buckets::file::header_room(f.len());
    let start = Cursor {
        at: 0,
        end: room,
        big,
        refused: 0,
    };
    let m = aipsio::numbers::mark(f, start);
    let b = read_bucket_fields(f, m);
    let i = read_index_fields(f, b.next);
    let e = aipsio::objects::close(i.next, m);
    answer_header(e, b, i)
}
