#![tactic(auto)]

// The audit of a pool: whether it is sound, for every pool. One walk from the root with a mark for each page met, so that no page is looked
// at twice; then the pages not met are all zero.
ghost use Rattle.std.specs.Prelude.{◌≡◌, true, ◌-◌, ◌≤◌, length};
ghost use Rattle.kdb.specs.Pool.{domains, good_header, pages_in};
ghost use Rattle.kdb.specs.Print.{sound};
ghost use Rattle.kdb.specs.Calls.{L};
ghost use Rattle.pages.specs.Tests.{PageOf};
ghost use Rattle.audit.specs.Walk.{fresh_of, leaf_of, page_walk, root_walk, rest_of};

use boxes::Sides;
use pages::{point_page, region_page};
use words::{Pool, WHOLE, zeros};

// Page j may be looked at: j is the number of a page that was not met.
fn fresh(pool: &Pool, j: usize, met: &[bool]) -> bool
    requires { pages_in L pool.now ≤ length met.now }
    ensures { result ≡ fresh_of (pages_in L pool.now) j met.now }
{
    j != 0 && j < pool.pages() && !met[j]
}

// The points of page j are found: how many of `left` there are still to find.
fn leaf(pool: &Pool, j: usize, region: &Sides, left: usize) -> Option<usize>
    requires page { PageOf pool.now j }
    requires sides { length region.now ≡ domains pool.now }
    ensures { result ≡ leaf_of L pool.now j region.now left }
{
    if !point_page(pool, j, region) {
        return None;
    }
    let words = pool.words;
    left.checked_sub(words[32 * j + 1] as usize)
}

// Page j, that is to have `level` levels and the region, and all below it: how many of `left` points there are still to find, none where a
// page is bad.
fn page(
    pool: &Pool,
    level: usize,
    j: usize,
    region: &Sides,
    met: &mut [bool],
    mut left: usize,
) -> Option<usize>
    requires room { pages_in L pool.now ≤ length met.old }
    requires sides { length region.now ≡ domains pool.now }
    ensures { (result, met.new) ≡ page_walk L pool.now (level - 1) j region.now left met.old }
{
    if !fresh(pool, j, met) {
        return None;
    }
    met[j] = true;
    if level <= 1 {
        return leaf(pool, j, region, left);
    }
    let k = pool.domains();
    let entries = region_page(pool, j, region)?;
    for entry in entries.chunks_exact(2 * k + 1) {
        let child = entry[2 * k] as usize;
        let part = Sides::region(entry, k, 0);
        left = page(pool, level - 1, child, &part, met, left)?;
    }
    Some(left)
}

// All that the header's root names, by word 4 the points to find.
fn walk(pool: &Pool, met: &mut [bool]) -> Option<usize>
    requires { pages_in L pool.now ≤ length met.old }
    ensures { (result, met.new) ≡ root_walk L pool.now met.old }
{
    let left = pool.count();
    let levels = pool.levels();
    if levels == 0 {
        return Some(left);
    }
    let k = pool.domains();
    let whole = Sides::region(&WHOLE, k, 4 - k);
    page(pool, levels, pool.root(), &whole, met, left)
}

// Every page behind the header that was not met is all zero.
fn rest(pool: &Pool, met: &[bool]) -> bool
    requires { pages_in L pool.now ≤ length met.now }
    ensures { result ≡ rest_of L pool.now met.now }
{
    let words = pool.words;
    (1..pool.pages()).all(|j| met[j] || zeros(words, 32 * j, 32 * j + 32))
}

// A pool with a good header is sound.
pub fn audit(pool: &Pool) -> bool
    requires { good_header L pool.now ≡ true }
    ensures { result ≡ sound L pool.now }
{
    // A pool of its form has no more pages than there are marks.
    let _ = &pool.form;
    let mut met = [false; 512];
    walk(pool, &mut met) == Some(0) && rest(pool, &met)
}
