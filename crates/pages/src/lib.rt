#![tactic(auto)]

// The tests of one page: a point page or a region page of a region, with its layout, for every page of every pool.
ghost use Rattle.std.specs.Prelude.{◌≡◌, cond, ◌≤◌, ◌<◌, length, Some, None};
ghost use Rattle.std.specs.Option.{option_map};
ghost use Rattle.kdb.specs.Lists.{every};
ghost use Rattle.kdb.specs.Box.{within};
ghost use Rattle.kdb.specs.Pages.{ents_in, page};
ghost use Rattle.kdb.specs.Pool.{domains, view};
ghost use Rattle.kdb.specs.Shape.{differ};
ghost use Rattle.kdb.specs.Calls.{L};
ghost use Rattle.words.specs.Words.{capacity_by, code_of};
ghost use Rattle.cover.specs.Boxes.{ents_of};
ghost use Rattle.pages.specs.Tests.{recs_of, column_in, unlike, head_of, entries_in, PageOf};
ghost use Rattle.pages.specs.Kinds.{sound_points, sound_regions};

use boxes::Sides;
use cover::tiled;
use words::{Kind, Pool, zeros};

// The keys in domain d of the points are at least `low` and below `high`.
fn side_holds(points: &[u32], k: usize, d: usize, low: u32, high: u32) -> bool
    requires { (d < k) × (k ≤ 4) }
    ensures { result ≡ column_in d (record { lo = low; hi = high }) (recs_of k points.now) }
{
    points
        .chunks_exact(k + 1)
        .all(|point| (low <= point[d]) & (point[d] < high))
}

// The points lie in the region.
fn all_hold(points: &[u32], region: &Sides) -> bool
    ensures { result ≡ every (λ x. within region.now x.key) (recs_of (length region.now) points.now) }
{
    let k = region.low.len();
    (0..k).all(|d| side_holds(points, k, d, region.low[d], region.high[d]))
}

// None of the points has these keys. Few points are asked, so this stays out of the loop of `distinct`.
#[cold]
#[inline(never)]
fn differs(keys: &[u32], points: &[u32]) -> bool
    requires { length keys.now ≤ 4 }
    ensures { result ≡ unlike keys.now (recs_of (length keys.now) points.now) }
{
    let k = keys.len();
    points.chunks_exact(k + 1).all(|point| keys != &point[..k])
}

// No two of the points have the same keys: with a mark for the last seven bits of each first key that was met, so that most are not held
// against any other. Points are split off one by one for speed: numbered chunks take more instructions.
fn distinct(points: &[u32], k: usize) -> bool
    requires { (1 ≤ k) × (k ≤ 4) }
    ensures { result ≡ differ (recs_of k points.now) }
{
    let mut marks = [false; 128];
    let mut rest = points;
    while let Some((point, later)) = rest.split_at_checked(k + 1) {
        let bits = (point[0] % 128) as usize;
        if marks[bits] && !differs(&point[..k], &points[..points.len() - rest.len()]) {
            return false;
        }
        marks[bits] = true;
        rest = later;
    }
    true
}

// The first four words of a page say this kind, no more entries than fit, one of k domains, and zero.
fn head_good(page: &[u32], kind: Kind, k: usize) -> bool
    requires { (length page.now ≡ L) × ((1 ≤ k) × (k ≤ 4)) }
    ensures { result ≡ head_of page.now k (code_of kind) (capacity_by kind k) }
{
    (page[0] == kind as u32)
        & (page[1] as usize <= kind.capacity(k))
        & ((page[2] as usize) < k)
        & (page[3] == 0)
}

// The words of the entries of page j, where its first four words are good for this kind and those behind the entries are zero.
fn entries<'a>(pool: &Pool<'a>, j: usize, kind: Kind) -> Option<&'a [u32]>
    requires { PageOf pool.now j }
    ensures words { option_map (λ x. x.now) result ≡ entries_in (domains pool.now) (page L pool.now j) kind }
    ensures few { (1 ≤ domains pool.now) × (domains pool.now ≤ 4) }
{
    let k = pool.domains();
    let words = pool.words;
    let page = &words[32 * j..32 * j + 32];
    if !head_good(page, kind, k) {
        return None;
    }
    let end = 4 + page[1] as usize * kind.width(k);
    if !zeros(page, end, 32) {
        return None;
    }
    Some(&page[4..end])
}

// Page j is a point page of the region.
pub fn point_page(pool: &Pool, j: usize, region: &Sides) -> bool
    requires page { PageOf pool.now j }
    requires sides { length region.now ≡ domains pool.now }
    ensures { result ≡ sound_points L pool.now j region.now }
{
    match entries(pool, j, Kind::Point) {
        Some(points) => all_hold(points, region) && distinct(points, pool.domains()),
        None => false,
    }
}

// The words of the entries of page j, where it is a region page of the region.
pub fn region_page<'a>(pool: &Pool<'a>, j: usize, region: &Sides) -> Option<&'a [u32]>
    requires page { PageOf pool.now j }
    requires sides { length region.now ≡ domains pool.now }
    ensures { option_map (λ x. ents_of (domains pool.now) x.now) result
        ≡ cond (sound_regions L pool.now j region.now) (Some (ents_in (view L pool.now j))) None }
{
    let entries = entries(pool, j, Kind::Region)?;
    if entries.is_empty() || !tiled(entries, region) {
        return None;
    }
    Some(entries)
}
