// The header of an IncrementalStMan file (RULES.md 6.1; Note 260, 3.4.3: Header).
ghost use Rattle.std.specs.Prelude.{◌≡◌, ◌<◌};
ghost use Rattle.incremental_rules.specs.Header.{fields_at, headed, header_at};
ghost use Rattle.incremental.specs.Bounds.{HeaderBounds, HeaderWords};

use aipsio_rules::Cursor;
use bytes_at::{Refusal, Width};
use incremental_rules::{Header, HeaderFields};

// From the object's header to the first free bucket.
fn read_fields(s: &[u8], c: Cursor) -> HeaderFields
    ensures value { result ≡ fields_at s.now c }
    ensures words { (result.free_count < 4294967296) × (result.first_free < 4294967296) }
{
    let o = aipsio::objects::open(s, c, b"IncrementalStMan", 5, 5);
    let flag = aipsio::numbers::flag(s, o.next);
    let same = buckets::file::same_endian(flag.value, c.big);
    let d = aipsio::judge(flag.next, o.next.at, same, 6);
    let size = aipsio::numbers::number(s, d, Width::Four, 16, 1048576);
    let count = aipsio::numbers::number(s, size.next, Width::Four, 0, 4096);
    let cache = aipsio::numbers::uint(s, count.next);
    let unique = aipsio::numbers::uint(s, cache.next);
    let free = aipsio::numbers::uint(s, unique.next);
    let first = aipsio::numbers::uint(s, free.next);
    HeaderFields {
        size: size.value,
        count: count.value,
        free_count: free.value,
        first_free: first.value,
        next: first.next,
    }
}

// The header, or zeros and the refusal where the cursor is refused. The two records of the rules have no struct update in common, and a
// constant for the zeros would be used once.
fn answer_header(c: Cursor, h: HeaderFields) -> Header
    ensures { result ≡ headed c h }
{
    if c.refused != 0 {
        return Header {
            size: 0,
            count: 0,
            free_count: 0,
            first_free: 0,
            refused: aipsio::refusal(c),
        };
    }
    Header {
        size: h.size,
        count: h.count,
        free_count: h.free_count,
        first_free: h.first_free,
        refused: Refusal { number: 0, byte: 0 },
    }
}

// The header of a file, in a table of the endianness given, which is the header's own.
pub fn read_header(f: &[u8], big: bool) -> Header
    ensures value { result ≡ header_at f.now big }
    ensures bounded { HeaderBounds result }
    ensures words { HeaderWords result }
{
    let room = buckets::file::header_room(f.len());
    let start = Cursor {
        at: 0,
        end: room,
        big,
        refused: 0,
    };
    let m = aipsio::numbers::mark(f, start);
    let h = read_fields(f, m);
    let e = aipsio::objects::close(h.next, m);
    answer_header(e, h)
}
