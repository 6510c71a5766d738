#![tactic(auto)]

// A page takes an entry: with room, or split along its chosen cut; down the first entry that holds the point, and up again as long as
// pages break.
ghost use Rattle.std.specs.Prelude.{◌≡◌, ◌+◌, ◌*◌, ◌≤◌, ◌<◌, ◌^◌, [], ◌∷◌, ◌++◌, length, take, replicate, IfOk, IfSome, unwrap_or};
ghost use Rattle.kdb.specs.Box.{within};
ghost use Rattle.kdb.specs.Calls.{L};
ghost use Rattle.kdb.specs.Pages.{regions_per, points_per};
ghost use Rattle.cut.specs.Keys.{Entries};
ghost use Rattle.words.specs.Words.{Formed, region_at, word, width_of};
ghost use Rattle.steps.specs.Machine.{overfull};
ghost use Rattle.steps.specs.Grow.{seek_in, widen_in, grow_in};
ghost use Rattle.grow.specs.Grown.{grown_as, kind_at, Real, break_at, settle_at};

use boxes::Sides;
use cut::{Cut, Overfull};
use deal::{Wanting, append, half, part, store};
use kdb::Form;
use split::part_entries;
use words::{Kind, get, put, word};

// A page that broke along a cut: its right page.
#[derive(Clone, Copy, Debug, PartialEq, Eq)]
pub struct Broken {
    pub cut: Cut,
    pub page: usize,
}

// The region at word a holds the point; one that runs past the end holds none.
#[tactic(auto, using(crate::proofs::Laws::holds_none))]
fn holds(pool: &[u32], k: usize, a: usize, point: &[u32]) -> bool
    requires { (1 ≤ k) × ((k ≤ 4) × ((a < 2 ^ 40) × (length point.now ≡ k))) }
    ensures { result ≡ within (region_at k pool.now a) point.now }
{
    a + 2 * k <= pool.len() && Sides::region(pool, k, a).holds(point)
}

// The place of the first entry of page j whose region holds the point. Called, so that a level of the tree does not hold its registers
// on the stack.
#[inline(never)]
#[tactic(auto, using(crate::proofs::Laws::seek_here, crate::proofs::Laws::seek_next, crate::proofs::Laws::seek_end))]
fn seek(pool: &[u32], f: Form, point: &[u32], j: usize) -> Option<usize>
    requires { Formed pool.now f × ((j < 2 ^ 32) × (length point.now ≡ f.domains)) }
    ensures { (unwrap_or result 0 ≡ seek_in f.domains point.now (word L pool.now j 1) pool.now (L * j + 4)) × IfSome result (λ a. (L * j + 4 ≤ a) × (a < 2 ^ 40)) }
{
    let wd = 2 * f.domains + 1;
    let m = word(pool, j, 1);
    for i in 0..m {
        let a = 32 * j + 4 + i * wd;
        if holds(pool, f.domains, a, point) {
            return Some(a);
        }
    }
    None
}

// Page j with an entry of wd words behind its last one, in the place of zeros.
#[tactic(auto, using(crate::proofs::Laws::far))]
fn overfull(over: &mut [u32; 48], pool: &[u32], wd: usize, j: usize, entry: &[u32])
    requires { (over.old ≡ replicate 48 0) × ((wd ≤ 9) × (j < 2 ^ 32)) }
    ensures { take (32 + wd) over.new ≡ overfull L wd pool.now j entry.now }
{
    store(over, 0, part(pool, 32 * j, 32));
    store(over, 4 + word(pool, j, 1) * wd, entry);
}

// The kind of a page with that level below it, which a point page has not.
fn kind_above(below: Option<usize>) -> Kind
    ensures { result ≡ kind_at below }
{
    match below {
        None => Kind::Point,
        Some(_) => Kind::Region,
    }
}

// The m entries of src are split between page j and a claimed page, along the cut that they offer from domain e on.
#[tactic(auto, using(crate::proofs::Laws::chosen, crate::proofs::Laws::break_nowhere, crate::proofs::Laws::break_short, crate::proofs::Laws::break_whole))]
fn break_page(
    pool: &mut [u32],
    f: Form,
    below: Option<usize>,
    src: &[u32],
    m: usize,
    e: usize,
    j: usize,
) -> Result<Option<Broken>, Wanting>
    requires { Formed pool.old f × (Entries f.domains (width_of (kind_at below) f.domains) m × ((4 + m * width_of (kind_at below) f.domains ≤ length src.now) × ((e < 2 ^ 32) × (j < 2 ^ 32)))) }
    ensures words { grown_as result pool.new ≡ break_at f.pages f.domains below e src.now m j pool.old }
    ensures real { IfOk result (λ o. IfSome o (Real f)) }
{
    let k = f.domains;
    let entries = Overfull {
        words: src,
        domains: k,
        width: kind_above(below).width(k),
        count: m,
    };
    let cut = entries.choose(e).ok_or(Wanting)?;
    let page = part_entries(pool, f, cut, below, src, m, (cut.domain + 1) % k, j)?;
    Ok(Some(Broken { cut, page }))
}

// Page j takes an entry behind its last one, and is split if it was full. One that counts more than it can hold takes nothing.
#[tactic(auto, using(crate::proofs::Laws::full_few, crate::proofs::Laws::full_ends, crate::proofs::Laws::settle_room, crate::proofs::Laws::settle_full, crate::proofs::Laws::settle_over))]
fn settle(
    pool: &mut [u32],
    f: Form,
    below: Option<usize>,
    entry: &[u32],
    j: usize,
) -> Result<Option<Broken>, Wanting>
    requires { Formed pool.old f × (j < 2 ^ 32) }
    ensures words { grown_as result pool.new ≡ settle_at f.pages f.domains below entry.now j pool.old }
    ensures real { IfOk result (λ o. IfSome o (Real f)) }
{
    let m = word(pool, j, 1);
    let kind = kind_above(below);
    let most = kind.capacity(f.domains);
    let wd = kind.width(f.domains);
    if m < most {
        append(pool, wd, j, entry);
        return Ok(None);
    }
    if m > most {
        return Err(Wanting);
    }
    let e = word(pool, j, 2);
    let mut over = [0u32; 48];
    overfull(&mut over, pool, wd, j, entry);
    break_page(pool, f, below, &over[..32 + wd], m + 1, e, j)
}

// A point with its location, for a pool of that form.
#[derive(Drop)]
pub struct Record<'a> {
    pub form: Form,
    pub point: &'a [u32],
    pub location: u32,
    ghost whole: { length point.now ≡ form.domains },
}

impl Record<'_> {
    // Its words: the point's keys, then the location.
    #[tactic(auto, using(crate::proofs::Laws::record_is))]
    pub fn words(&self) -> [u32; 5]
        requires { self.now.form.domains ≤ 4 }
        ensures { take (self.now.form.domains + 1) result ≡ self.now.point.now ++ (self.now.location ∷ []) }
    {
        let mut words = [0u32; 5];
        store(&mut words, 0, self.point);
        put(&mut words, self.point.len(), self.location as usize);
        words
    }
}

// Point page j takes the record. Called, as `widen` is, so that a level of the tree does not hold these entries on the stack.
#[inline(never)]
#[tactic(auto, using(crate::proofs::Laws::grow_point))]
fn grow_points(pool: &mut [u32], added: &Record, j: usize) -> Result<Option<Broken>, Wanting>
    requires { Formed pool.old added.now.form × (j < 2 ^ 32) }
    ensures words { grown_as result pool.new ≡ grow_in L added.now.form.pages added.now.form.domains (regions_per L added.now.form.domains) (points_per L added.now.form.domains) added.now.point.now added.now.location 0 j pool.old }
    ensures real { IfOk result (λ o. IfSome o (Real added.now.form)) }
{
    let f = added.form;
    settle(pool, f, None, &added.words()[..f.domains + 1], j)
}

// Region page j, whose child in the entry at word a broke, takes both halves.
#[inline(never)]
#[tactic(auto, using(crate::proofs::Laws::widen_is))]
fn widen(
    pool: &mut [u32],
    f: Form,
    level: usize,
    child: Broken,
    a: usize,
    j: usize,
) -> Result<Option<Broken>, Wanting>
    requires { Formed pool.old f × (Real f child × ((L * j + 4 ≤ a) × ((a < 2 ^ 40) × (j < 2 ^ 32)))) }
    ensures words { grown_as result pool.new ≡ widen_in L f.pages f.domains (regions_per L f.domains) (points_per L f.domains) level child.cut.domain child.cut.key child.page a j pool.old }
    ensures real { IfOk result (λ o. IfSome o (Real f)) }
{
    let k = f.domains;
    let cut = child.cut;
    let entry = part(pool, a, 2 * k + 1);
    let n = entry.len();
    let right = half(k, entry, cut.domain, cut.key, child.page);
    put(pool, a + k + cut.domain, cut.key as usize);
    settle(pool, f, Some(level), &right[..n], j)
}

// Page j, `level` levels above the point pages, takes the record: with room, or broken.
#[tactic(auto, using(crate::proofs::Laws::grow_short, crate::proofs::Laws::grow_wider))]
pub fn grow(
    pool: &mut [u32],
    added: &Record,
    level: usize,
    j: usize,
) -> Result<Option<Broken>, Wanting>
    requires { Formed pool.old added.now.form × (j < 2 ^ 32) }
    ensures words { grown_as result pool.new ≡ grow_in L added.now.form.pages added.now.form.domains (regions_per L added.now.form.domains) (points_per L added.now.form.domains) added.now.point.now added.now.location level j pool.old }
    ensures real { IfOk result (λ o. IfSome o (Real added.now.form)) }
{
    let f = added.form;
    let Some(below) = level.checked_sub(1) else {
        return grow_points(pool, added, j);
    };
    let a = seek(pool, f, added.point, j).ok_or(Wanting)?;
    let q = get(pool, a + 2 * f.domains);
    match grow(pool, added, below, q)? {
        None => Ok(None),
        Some(child) => widen(pool, f, below, child, a, j),
    }
}
