#![tactic(auto)]

// Splitting a page along a cut: its entries are dealt out, and an entry that crosses has its child's page split first.
ghost use Rattle.std.specs.Prelude.{◌≡◌, ◌<◌, ◌^◌, IfOk};
ghost use Rattle.kdb.specs.Steps.{after_forced};
ghost use Rattle.kdb.specs.Calls.{L};
ghost use Rattle.words.specs.Words.{word_at, Formed};
ghost use Rattle.steps.specs.Split.{entries_in, part_regions, split_in};
ghost use Rattle.deal.specs.Part.{claimed, PageIn};
ghost use Rattle.split.specs.Part.{passed, part_at};

use cut::Cut;
use deal::{Wanting, append, crosses, deal_both, open_pages, part, part_points, store};
use kdb::Form;
use words::{Kind, get, word};

// The splitting domain of both pages after a forced split of page j.
fn after_forced(pool: &[u32], f: Form, j: usize) -> usize
    requires { Formed pool.now f × (j < 2 ^ 32) }
    ensures { (result ≡ after_forced f.domains (word_at pool.now j 2)) × (result < 2 ^ 32) }
{
    word(pool, j, 2)
}

// Splits page j, `level` levels above the point pages, along the cut: the right page.
#[cycle(entry_pass_split_page)]
#[tactic(auto, using(crate::proofs::Laws::split_at))]
fn split_page(pool: &mut [u32], f: Form, cut: Cut, level: usize, j: usize) -> Result<usize, Wanting>
    requires { Formed pool.old f × ((cut.domain < f.domains) × (j < 2 ^ 32)) }
    ensures words { claimed result pool.new ≡ split_in L f.pages f.domains cut.domain cut.key level j pool.old }
    ensures page { IfOk result (PageIn f) }
{
    let m = word(pool, j, 1);
    let e = after_forced(pool, f, j);
    let mut old = [0u32; 32];
    store(&mut old, 0, part(pool, 32 * j, 32));
    part_entries(pool, f, cut, level.checked_sub(1), &old, m, e, j)
}

// Deals out the m entries of src, in page order; a crossing one has its child's page, of the given level, split first.
#[cycle(entry_pass_split_page)]
#[tactic(auto, using(crate::proofs::Laws::entries_short, crate::proofs::Laws::entries_end, crate::proofs::Laws::entries_both, crate::proofs::Laws::entries_deal))]
pub fn entry_pass(
    pool: &mut [u32],
    f: Form,
    cut: Cut,
    level: usize,
    src: &[u32],
    m: usize,
    j: usize,
    r: usize,
) -> Result<(), Wanting>
    requires { Formed pool.old f × ((cut.domain < f.domains) × ((m < 2 ^ 33) × ((j < 2 ^ 32) × (r < 2 ^ 32)))) }
    ensures { passed result pool.new ≡ entries_in L f.domains cut.domain cut.key (split_in L f.pages f.domains cut.domain cut.key level) m src.now 4 j r pool.old }
{
    let k = f.domains;
    let wd = 2 * k + 1;
    for i in 0..m {
        let entry = part(src, 4 + i * wd, wd);
        if crosses(entry, k, cut) {
            let q = split_page(pool, f, cut, level, get(entry, 2 * k))?;
            deal_both(pool, k, cut, entry, j, r, q);
        } else {
            let left = get(entry, k + cut.domain) <= cut.key as usize;
            append(pool, wd, if left { j } else { r }, entry);
        }
    }
    Ok(())
}

// The m entries of src, `level` levels above the point pages, go to page j and a claimed page, both of domain e: the claimed page.
#[cycle(entry_pass_split_page)]
#[tactic(auto, using(crate::proofs::Laws::regions_none, crate::proofs::Laws::regions_short))]
pub fn part_regions(
    pool: &mut [u32],
    f: Form,
    cut: Cut,
    level: usize,
    src: &[u32],
    m: usize,
    e: usize,
    j: usize,
) -> Result<usize, Wanting>
    requires { Formed pool.old f × ((cut.domain < f.domains) × ((m < 2 ^ 33) × ((e < 2 ^ 32) × (j < 2 ^ 32)))) }
    ensures words { claimed result pool.new ≡ part_regions L f.pages f.domains cut.domain cut.key (split_in L f.pages f.domains cut.domain cut.key level) src.now m e j pool.old }
    ensures page { IfOk result (PageIn f) }
{
    let r = open_pages(pool, f, Kind::Region, e, j)?;
    entry_pass(pool, f, cut, level, src, m, j, r)?;
    Ok(r)
}

// The m entries of src go to page j and a claimed page, both of domain e: the claimed page. They are records or, where there is a level below
// theirs, regions.
#[cycle(entry_pass_split_page)]
pub fn part_entries(
    pool: &mut [u32],
    f: Form,
    cut: Cut,
    below: Option<usize>,
    src: &[u32],
    m: usize,
    e: usize,
    j: usize,
) -> Result<usize, Wanting>
    requires { Formed pool.old f × ((cut.domain < f.domains) × ((m < 2 ^ 33) × ((e < 2 ^ 32) × (j < 2 ^ 32)))) }
    ensures words { claimed result pool.new ≡ part_at f.pages f.domains cut.domain cut.key below src.now m e j pool.old }
    ensures page { IfOk result (PageIn f) }
{
    match below {
        None => part_points(pool, f, cut, src, m, e, j),
        Some(level) => part_regions(pool, f, cut, level, src, m, e, j),
    }
}
