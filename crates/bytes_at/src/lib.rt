// Bytes: the numbers that stand in them, and their parts; and refusals, which tell the byte of a fault.
#![tactic(auto)]

ghost use Rattle.std.specs.Prelude.{◌≡◌, ◌≤◌, ◌<◌, ◌+◌, ◌^◌, length, take, drop};
ghost use Rattle.std.proofs.Math.Seq.{paste};
ghost use Rattle.bytes_at.specs.Number.{bytes_of, int_width, uint_of};
ghost use Rattle.bytes_at.specs.Stages.{blaming};
ghost use Rattle.bytes_at.specs.Bytes.{first_zero, before_zero, same_bytes};

// Why something is refused: its number (RULES.md 8.1), which is 0 where nothing is, and the byte at which the failing field begins
// (RULES.md 8.5). Byte 0 is a place too, so the number alone tells whether anything is refused.
// A number, and no enum: RULES.md 8.1 gives each refusal its own, C is told it, and `OthersCarry0` speaks of it.
// No Default: that nothing is refused is written out, as `no_refusal` has it.
#[derive(Clone, Copy)]
pub struct Refusal {
    pub number: usize,
    pub byte: usize,
}

// How many bytes a number has.
#[derive(Clone, Copy)]
pub enum Width {
    One,
    Two,
    Four,
    Eight,
}

impl Width {
    // An Int's or a uInt's; an Int64's where wide.
    // No From: a Bool by itself says nothing of a width, and a call has to say of what (`int_width`).
    pub fn of_int(wide: bool) -> Width
        ensures { result ≡ int_width wide }
    {
        if wide { Width::Eight } else { Width::Four }
    }

    pub fn bytes(self) -> usize
        ensures { (result ≡ bytes_of self) × (result ≤ 8) }
    {
        match self {
            Width::One => 1,
            Width::Two => 2,
            Width::Four => 4,
            Width::Eight => 8,
        }
    }
}

// The number in N bytes that are there, in either byte order.
// By index: of such a loop over four or eight bytes the compiler makes one load, and a byte swap.
pub fn uint_there<const N: usize>(s: &[u8], at: usize, big: bool) -> usize
    requires { (N ≤ 8) × (at + N ≤ length s.now) }
    ensures value { result ≡ uint_of big N s.now at }
    ensures bounded { result < 256 ^ N }
{
    let mut n = 0;
    if big {
        for k in 0..N {
            n = n * 256 + s[at + k] as usize;
        }
    } else {
        for k in 0..N {
            n = n * 256 + s[at + N - 1 - k] as usize;
        }
    }
    n
}

// The number in N bytes; 0 where the bytes end before. An Int of -1 is 4,294,967,295.
pub fn uint<const N: usize>(s: &[u8], at: usize, big: bool) -> usize
    requires { N ≤ 8 }
    ensures value { result ≡ uint_of big N s.now at }
    ensures bounded { result < 256 ^ N }
{
    if s.len() < N || s.len() - N < at {
        return 0;
    }
    uint_there::<N>(s, at, big)
}

// The number in as many bytes as the width says; 0 where the bytes end before.
pub fn number(s: &[u8], at: usize, big: bool, width: Width) -> usize
    ensures { result ≡ uint_of big (bytes_of width) s.now at }
{
    match width {
        Width::One => uint::<1>(s, at, big),
        Width::Two => uint::<2>(s, at, big),
        Width::Four => uint::<4>(s, at, big),
        Width::Eight => uint::<8>(s, at, big),
    }
}

// The same, of bytes that are there.
// What reads many numbers of one width asks for the width once, and takes `uint_there`.
pub fn number_there(s: &[u8], at: usize, big: bool, width: Width) -> usize
    requires { at + bytes_of width ≤ length s.now }
    ensures { result ≡ uint_of big (bytes_of width) s.now at }
{
    match width {
        Width::One => uint_there::<1>(s, at, big),
        Width::Two => uint_there::<2>(s, at, big),
        Width::Four => uint_there::<4>(s, at, big),
        Width::Eight => uint_there::<8>(s, at, big),
    }
}

// A refusal with a number, of a field that begins at a place.
pub fn blame(number: usize, at: usize) -> Refusal
    ensures { result ≡ blaming number at }
{
    let byte = if 1 <= number && number <= 7 { at } else { 0 };
    Refusal { number, byte }
}

// As many of the len bytes from start as there are, and where they stand: in the block of s, after its first start bytes.
pub fn part(s: &[u8], start: usize, len: usize) -> &[u8]
    ensures value { result.now ≡ take len (drop start s.now) }
    ensures place { result.ref_ptr ≡ (s.entry.ref_ptr.0, s.entry.ref_ptr.1 + length (take start s.now)) }
{
    let from = start.min(s.len());
    let most = len.min(s.len() - from);
    &s[from..from + most]
}

// The bytes from start on.
pub fn rest(s: &[u8], start: usize) -> &[u8]
    ensures { result.now ≡ drop start s.now }
{
    &s[start.min(s.len())..]
}

// Copies n bytes of src from `from` into dst at `at`.
// By index, and no `copy_from_slice`: that took `memmove` here from whoever links the archive for C, and this takes no new name.
pub fn copy(src: &[u8], from: usize, n: usize, dst: &mut [u8], at: usize)
    requires { (from + n ≤ length src.now) × (at + n ≤ length dst.old) }
    ensures { dst.new ≡ paste dst.old at (drop from src.now) n }
{
    for k in 0..n {
        dst[at + k] = src[from + k];
    }
}

// How many bytes stand before the first zero byte.
pub fn first_zero(s: &[u8]) -> usize
    ensures { (result ≡ first_zero s.now) × (result ≤ length s.now) }
{
    s.iter().position(|x| *x == 0).unwrap_or(s.len())
}

// What stands before the first zero byte, all of it where there is none.
pub fn before_zero(s: &[u8]) -> &[u8]
    ensures { (result.now ≡ before_zero s.now) × (result.ref_ptr ≡ s.entry.ref_ptr) }
{
    &s[..first_zero(s)]
}

// Whether two slices of one length hold the same bytes, N of them at a time. The last N may overlap those before them.
#[inline(always)]
fn same_by<const N: usize>(a: &[u8], b: &[u8]) -> bool
    requires size { (1 ≤ N) × (N ≤ 8) }
    requires long { (N ≤ length a.now) × (length a.now ≡ length b.now) }
    ensures { result ≡ same_bytes a.now b.now }
{
    let last = a.len() - N;
    for k in 0..last.div_ceil(N) {
        if uint_there::<N>(a, k * N, true) != uint_there::<N>(b, k * N, true) {
            return false;
        }
    }
    uint_there::<N>(a, last, true) == uint_there::<N>(b, last, true)
}

// Whether two slices hold the same bytes: `==`, in the definitions' word. A table with 64 columns has 2,000 pairs of names compared, most of which
// differ in their length or early on: so this is put in place, and compares numbers, where `==` of slices calls a function that looks at 32 bytes one by one.
#[inline(always)]
pub fn same(a: &[u8], b: &[u8]) -> bool
    ensures { result ≡ same_bytes a.now b.now }
{
    if a.len() != b.len() {
        return false;
    }
    match a.len() {
        0..=3 => a == b,
        4..=7 => same_by::<4>(a, b),
        _ => same_by::<8>(a, b),
    }
}

// Whether the len bytes from start, or as many of them as there are, are the bytes given.
#[inline(always)]
pub fn is_at(s: &[u8], start: usize, len: usize, expected: &[u8]) -> bool
    ensures { result ≡ same_bytes (take len (drop start s.now)) expected.now }
{
    same(part(s, start, len), expected)
}
