#![tactic(auto)]

// The exact test that the regions of a page tile a region, for every arrangement: each not empty and inside, no two with a common key,
// and as many keys together as the region has.
ghost use Rattle.std.specs.Prelude.{◌≡◌, true, length};
ghost use Rattle.kdb.specs.Tiling.{tiles};
ghost use Rattle.cover.specs.Boxes.{inside_of, overlap, clear_of, fitted, regions_of};
ghost use Rattle.cover.specs.Volume.{volume_of};

use boxes::Sides;

// The region is not empty and lies in the other. Here and in `share` the domains are counted for speed: that takes fewer instructions than
// iterators over the four slices.
fn inside(region: &Sides, other: &Sides) -> bool
    requires { length other.now ≡ length region.now }
    ensures { result ≡ inside_of region.now other.now }
{
    (0..region.low.len()).all(|d| {
        let (low, high) = (region.low[d], region.high[d]);
        (low < high) & (other.low[d] <= low) & (high <= other.high[d])
    })
}

// The two regions, both not empty, share a key.
fn share(one: &Sides, other: &Sides) -> bool
    requires { length other.now ≡ length one.now }
    ensures { result ≡ overlap one.now other.now }
{
    (0..one.low.len()).all(|d| (one.low[d] < other.high[d]) & (other.low[d] < one.high[d]))
}

// None of the entries' regions shares a key with the region.
fn clear_of(region: &Sides, entries: &[u32]) -> bool
    ensures { result ≡ clear_of region.now (regions_of (length region.now) entries.now) }
{
    let k = region.low.len();
    entries
        .chunks_exact(2 * k + 1)
        .all(|entry| !share(region, &Sides::region(entry, k, 0)))
}

// The entries' regions are not empty, lie in the region, and share no key.
// `split_at_checked` gives each entry with the entries behind it, which it is held against.
fn fit(entries: &[u32], region: &Sides) -> bool
    ensures { result ≡ fitted region.now (regions_of (length region.now) entries.now) }
{
    let k = region.low.len();
    let mut rest = entries;
    while let Some((entry, later)) = rest.split_at_checked(2 * k + 1) {
        let first = Sides::region(entry, k, 0);
        if !inside(&first, region) || !clear_of(&first, later) {
            return false;
        }
        rest = later;
    }
    true
}

// How many keys the region holds.
fn volume(region: &Sides) -> u128
    ensures { result ≡ volume_of region.now }
{
    let mut keys: u128 = 1;
    for (low, high) in region.low.iter().zip(region.high) {
        keys *= u128::from(high.saturating_sub(*low));
    }
    keys
}

// The entries' regions, which fit in the region, have together as many keys.
fn filled(entries: &[u32], region: &Sides) -> bool
    requires { fitted region.now (regions_of (length region.now) entries.now) ≡ true }
    ensures { result ≡ tiles region.now (regions_of (length region.now) entries.now) }
{
    let k = region.low.len();
    let whole = volume(region);
    let parts: u128 = entries
        .chunks_exact(2 * k + 1)
        .map(|entry| volume(&Sides::region(entry, k, 0)))
        .sum();
    parts == whole
}

// The entries' regions tile the region.
pub fn tiled(entries: &[u32], region: &Sides) -> bool
    ensures { result ≡ tiles region.now (regions_of (length region.now) entries.now) }
{
    fit(entries, region) && filled(entries, region)
}
