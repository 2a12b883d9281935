// The extents of columns in a bucket: where each ends, and whether one meets another of its set (RULES.md 5.6).
ghost use Rattle.std.specs.Prelude.{◌≤◌, ◌<◌, ◌≡◌};
ghost use Rattle.standard_rules.specs.Map.{extent_end, clear};
ghost use Rattle.bytes_at.specs.Lists.{all, pairs};

use standard_rules::Extent;

// Where an extent ends that starts at the offset, with `per` cells of so many bits.
pub fn extent_end(offset: usize, per: usize, bits: usize) -> usize
    requires { (offset < 4294967296) × (per ≤ 8388608) × (bits < 4294967296) }
    ensures { result ≡ extent_end offset per bits }
{
    offset + (per * bits).div_ceil(8)
}

// Whether two extents are of different sets, or do not meet.
#[tactic(auto, unfolding(standard_rules::specs::Map::clear))]
fn is_clear(x: Extent, y: Extent) -> bool
    ensures { result ≡ clear x y }
{
    !x.kept || !y.kept || x.set != y.set || x.end <= y.start || y.end <= x.start
}

// Whether an extent meets none of its set among others.
fn is_apart(x: Extent, others: &[Extent]) -> bool
    ensures { result ≡ all (clear x) others.now }
{
    others.iter().all(|y| is_clear(x, *y))
}

// Whether no two extents of one set meet.
pub fn all_apart(extents: &[Extent]) -> bool
    ensures { result ≡ pairs clear extents.now }
{
    // By index: the extents behind i are lent to `is_apart`.
    for i in 0..extents.len() {
        if !is_apart(extents[i], &extents[i + 1..]) {
            return false;
        }
    }
    true
}
