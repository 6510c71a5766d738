#![tactic(auto)]

// Dealing out a page along a cut: a page is claimed, and the entries go from a copy of the page to the two sides, each behind the last one
// there; an entry that crosses goes to both, as halves.
ghost use Rattle.std.specs.Prelude.{◌&&◌, ◌≡◌, ◌+◌, ◌*◌, ◌≤◌, ◌<◌, ◌^◌, IfOk, ltb, length, take, drop, get_or, set, replicate};
ghost use Rattle.std.proofs.lemmas.List.Edits.{sets};
ghost use Rattle.kdb.specs.Calls.{L};
ghost use Rattle.kdb.specs.declared.Refusal.TheVariants.{NoFreePage};
ghost use Rattle.steps.specs.Machine.{fresh_in, append_in};
ghost use Rattle.steps.specs.Claim.{claim_in};
ghost use Rattle.steps.specs.Split.{points_in, part_points};
ghost use Rattle.words.specs.Words.{Formed, code_of};
ghost use Rattle.deal.specs.Part.{claimed, open_in, half_in, both_in, PageIn};

use cut::Cut;
use kdb::{Form, Refusal};
use words::{Kind, clear, get, lowest_free, put, word};

// A page is wanting: none is free, a page counts too many, its entries offer no cut, or none of them holds the point.
#[derive(Clone, Copy, Debug, PartialEq, Eq)]
pub struct Wanting;

impl From<Wanting> for Refusal {
    ghost from_gives = { λ _ r. r ≡ NoFreePage };

    fn from(_: Wanting) -> Refusal {
        Refusal::NoFreePage
    }
}

// The words of src from `at` on, `count` at most.
pub fn part(src: &[u32], at: usize, count: usize) -> &[u32]
    ensures { result.now ≡ take count (drop at src.now) }
{
    let start = at.min(src.len());
    let n = count.min(src.len() - start);
    &src[start..start + n]
}

// Stores the words of src over x's from `at` on, as far as x goes: one by one, since a few words over a local array would else be a call
// of `memcpy`.
pub fn store(x: &mut [u32], at: usize, src: &[u32])
    ensures { x.new ≡ sets x.old at src.now }
{
    let start = at.min(x.len());
    for i in 0..src.len() {
        put(x, start + i, src[i] as usize);
    }
}

// Page c becomes a page with that number for its kind and that splitting domain, and no entry.
#[tactic(auto, using(crate::proofs::Laws::fresh_is))]
pub fn fresh(pool: &mut [u32], c: usize, kind: u32, e: usize)
    requires { (c < 2 ^ 32) × (e < 2 ^ 32) }
    ensures { pool.new ≡ fresh_in L pool.old c kind e }
{
    clear(pool, 32 * c, 32 * c + 32);
    put(pool, 32 * c, kind as usize);
    put(pool, 32 * c + 2, e);
}

// Claims the lowest free page.
#[tactic(auto, using(crate::proofs::Laws::claim_none, crate::proofs::Laws::claim_some))]
pub fn claim(pool: &mut [u32], f: Form, kind: Kind, e: usize) -> Result<usize, Wanting>
    requires { Formed pool.old f × (e < 2 ^ 32) }
    ensures words { claimed result pool.new ≡ claim_in L f.pages (code_of kind) e pool.old }
    ensures page { IfOk result (PageIn f) }
{
    let r = lowest_free(pool, f.pages).ok_or(Wanting)?;
    fresh(pool, r, kind.code(), e);
    Ok(r)
}

// The entry goes behind the last entry of page c, whose entries are of wd words, unless the page ends there.
#[tactic(auto, using(crate::proofs::Laws::small, crate::proofs::Laws::fewer, crate::proofs::Laws::near), unfolding(steps::specs::Machine::append_in))]
pub fn append(pool: &mut [u32], wd: usize, c: usize, entry: &[u32])
    requires { (1 ≤ wd) × ((wd ≤ 9) × (c < 2 ^ 32)) }
    ensures { pool.new ≡ append_in L wd pool.old c entry.now }
{
    let m = word(pool, c, 1);
    if 4 + (m + 1) * wd <= 32 {
        store(pool, 32 * c + (4 + m * wd), entry);
        put(pool, 32 * c + 1, m + 1);
    }
}

// Claims the right page, and clears page j for the left: the right page.
#[tactic(auto, using(crate::proofs::Laws::open_none))]
pub fn open_pages(
    pool: &mut [u32],
    f: Form,
    kind: Kind,
    e: usize,
    j: usize,
) -> Result<usize, Wanting>
    requires { Formed pool.old f × ((e < 2 ^ 32) × (j < 2 ^ 32)) }
    ensures words { claimed result pool.new ≡ open_in f.pages (code_of kind) e j pool.old }
    ensures page { IfOk result (PageIn f) }
{
    let r = claim(pool, f, kind, e)?;
    fresh(pool, j, kind.code(), e);
    Ok(r)
}

// The m records of src go to page j where their key is below the cut, else to page r.
#[tactic(auto, using(crate::proofs::Laws::points_end, crate::proofs::Laws::points_next))]
fn deal_points(pool: &mut [u32], k: usize, cut: Cut, src: &[u32], m: usize, j: usize, r: usize)
    requires { (k ≤ 4) × ((cut.domain < k) × ((m < 2 ^ 33) × ((j < 2 ^ 32) × (r < 2 ^ 32)))) }
    ensures { pool.new ≡ points_in L k cut.domain cut.key m src.now 4 j r pool.old }
{
    for i in 0..m {
        let record = part(src, 4 + i * (k + 1), k + 1);
        let left = get(record, cut.domain) < cut.key as usize;
        append(pool, k + 1, if left { j } else { r }, record);
    }
}

// The m records of src go to page j and a claimed page, both of domain e: the claimed page.
#[tactic(auto, using(crate::proofs::Laws::points_none, crate::proofs::Laws::points_some))]
pub fn part_points(
    pool: &mut [u32],
    f: Form,
    cut: Cut,
    src: &[u32],
    m: usize,
    e: usize,
    j: usize,
) -> Result<usize, Wanting>
    requires { Formed pool.old f × ((cut.domain < f.domains) × ((m < 2 ^ 33) × ((e < 2 ^ 32) × (j < 2 ^ 32)))) }
    ensures words { claimed result pool.new ≡ part_points L f.pages f.domains cut.domain cut.key src.now m e j pool.old }
    ensures page { IfOk result (PageIn f) }
{
    let r = open_pages(pool, f, Kind::Point, e, j)?;
    deal_points(pool, f.domains, cut, src, m, j, r);
    Ok(r)
}

// The entry's region lies on both sides of the cut.
pub fn crosses(entry: &[u32], k: usize, cut: Cut) -> bool
    requires { (k ≤ 4) × (cut.domain ≤ 4) }
    ensures { result ≡ ltb cut.key (get_or entry.now (k + cut.domain) 0) && ltb (get_or entry.now cut.domain 0) cut.key }
{
    let key = cut.key as usize;
    (key < get(entry, k + cut.domain)) & (get(entry, cut.domain) < key)
}

// One half of an entry, in as many words as it has: its word i becomes x, its child q.
#[tactic(auto, using(crate::proofs::Laws::half_is))]
pub fn half(k: usize, entry: &[u32], i: usize, x: u32, q: usize) -> [u32; 9]
    requires { (k ≤ 4) × ((length entry.now ≤ 2 * k + 1) × (q < 2 ^ 32)) }
    ensures words { result ≡ set (set (sets (replicate 9 0) 0 entry.now) i x) (2 * k) q }
    ensures half { take (length entry.now) result ≡ half_in k entry.now i x q }
{
    let mut words = [0u32; 9];
    store(&mut words, 0, entry);
    put(&mut words, i, x as usize);
    put(&mut words, 2 * k, q);
    words
}

// One half of an entry goes behind the last entry of page c.
pub fn append_half(pool: &mut [u32], k: usize, c: usize, entry: &[u32], i: usize, x: u32, q: usize)
    requires { (k ≤ 4) × ((c < 2 ^ 32) × ((length entry.now ≤ 2 * k + 1) × (q < 2 ^ 32))) }
    ensures { pool.new ≡ append_in L (2 * k + 1) pool.old c (half_in k entry.now i x q) }
{
    let words = half(k, entry, i, x, q);
    append(pool, 2 * k + 1, c, &words[..entry.len()]);
}

// The halves of an entry go to pages j and r; q is the child's right page.
#[tactic(auto, using(crate::proofs::Laws::both_is))]
pub fn deal_both(pool: &mut [u32], k: usize, cut: Cut, entry: &[u32], j: usize, r: usize, q: usize)
    requires { (k ≤ 4) × ((cut.domain < k) × ((length entry.now ≤ 2 * k + 1) × ((j < 2 ^ 32) × ((r < 2 ^ 32) × (q < 2 ^ 32))))) }
    ensures { pool.new ≡ both_in k cut.domain cut.key entry.now j r q pool.old }
{
    let child = get(entry, 2 * k);
    append_half(pool, k, j, entry, k + cut.domain, cut.key, child);
    append_half(pool, k, r, entry, cut.domain, cut.key, q);
}
