#![tactic(auto)]

// Placing and removing in a pool: the root grows, a new root or the first page is claimed, and the header is written last.
ghost use Rattle.std.specs.Prelude.{◌≡◌, ◌+◌, ◌<◌, ◌^◌, length};
ghost use Rattle.kdb.specs.Calls.{L};
ghost use Rattle.kdb.specs.Pool.{root_at, levels_at, count_at};
ghost use Rattle.words.specs.Words.{Formed, Fit};
ghost use Rattle.split.specs.Part.{passed};
ghost use Rattle.grow.specs.Grown.{Real};
ghost use Rattle.steps.specs.Machine.{head_in};
ghost use Rattle.steps.specs.Place.{root_in, first_in, place_in};
ghost use Rattle.steps.specs.Remove.{down_in, remove_in};
ghost use Rattle.place.specs.Steps.{header_of, Topping, steps_in};

use deal::{Wanting, append, append_half, claim};
use grow::{Broken, Record, grow};
use kdb::Form;
use words::{Kind, WHOLE, clear, copy, get, put, word};

// The header's words that placing changes.
#[derive(Clone, Copy, Debug, PartialEq, Eq)]
struct Header {
    root: usize,
    levels: usize,
    count: usize,
}

impl Header {
    // Those of a pool.
    fn read(pool: &[u32]) -> Header
        ensures { result ≡ header_of pool.now }
    {
        Header {
            root: get(pool, 2),
            levels: get(pool, 3),
            count: get(pool, 4),
        }
    }

    // Writes them.
    #[tactic(auto, using(crate::proofs::Laws::header_is))]
    fn write(self, pool: &mut [u32])
        requires { (self.root < 2 ^ 32) × ((self.levels < 2 ^ 32) × (self.count < 2 ^ 32)) }
        ensures { pool.new ≡ head_in pool.old self.root self.levels self.count }
    {
        put(pool, 2, self.root);
        put(pool, 3, self.levels);
        put(pool, 4, self.count);
    }
}

// The root broke: a new root lists both pages.
#[tactic(auto, using(crate::proofs::Laws::root_none, crate::proofs::Laws::root_some, crate::proofs::Laws::whole_half))]
fn new_root(pool: &mut [u32], f: Form, broken: Broken, before: Header) -> Result<(), Wanting>
    requires { Formed pool.old f × (Real f broken × Topping before.root before.levels before.count) }
    ensures { passed result pool.new ≡ root_in L f.pages f.domains broken.cut.domain broken.cut.key before.root broken.page before.levels before.count pool.old }
{
    let k = f.domains;
    let cut = broken.cut;
    let root = claim(pool, f, Kind::Region, 0)?;
    let space = &WHOLE[4 - k..5 + k];
    append_half(pool, k, root, space, k + cut.domain, cut.key, before.root);
    append_half(pool, k, root, space, cut.domain, cut.key, broken.page);
    let header = Header {
        root,
        levels: before.levels + 1,
        count: before.count + 1,
    };
    header.write(pool);
    Ok(())
}

// The first point claims a point page.
#[tactic(auto, using(crate::proofs::Laws::first_none, crate::proofs::Laws::first_some))]
fn first_point(pool: &mut [u32], added: &Record) -> Result<(), Wanting>
    requires { Formed pool.old added.now.form }
    ensures { passed result pool.new ≡ first_in L added.now.form.pages added.now.form.domains added.now.point.now added.now.location pool.old }
{
    let f = added.form;
    let root = claim(pool, f, Kind::Point, 0)?;
    append(pool, f.domains + 1, root, &added.words()[..f.domains + 1]);
    let header = Header {
        root,
        levels: 1,
        count: 1,
    };
    header.write(pool);
    Ok(())
}

// The steps of placing; where a page is wanting they are left half-way.
#[tactic(auto, using(crate::proofs::Laws::steps_first, crate::proofs::Laws::steps_short, crate::proofs::Laws::steps_fine, crate::proofs::Laws::steps_broke))]
fn place_steps(pool: &mut [u32], added: &Record) -> Result<(), Wanting>
    requires { Formed pool.old added.now.form × Topping (root_at pool.old) (levels_at pool.old) (count_at pool.old) }
    ensures { passed result pool.new ≡ steps_in added.now.form.pages added.now.form.domains added.now.point.now added.now.location pool.old }
{
    let before = Header::read(pool);
    let Some(level) = before.levels.checked_sub(1) else {
        return first_point(pool, added);
    };
    match grow(pool, added, level, before.root)? {
        Some(broken) => new_root(pool, added.form, broken, before),
        None => {
            let count = before.count + 1;
            let header = Header { count, ..before };
            header.write(pool);
            Ok(())
        }
    }
}

// Places a point: work becomes the copy of the pool before the steps alter the pool, and where a page is wanting the pool becomes the
// copy of work again.
#[tactic(auto, using(crate::proofs::Laws::place_done, crate::proofs::Laws::place_back))]
pub fn place_in(
    pool: &mut [u32],
    work: &mut [u32],
    f: Form,
    point: &[u32],
    location: u32,
) -> Result<(), Wanting>
    requires { Fit pool.old f × (Topping (root_at pool.old) (levels_at pool.old) (count_at pool.old) × ((length point.now ≡ f.domains) × (length work.old ≡ length pool.old))) }
    ensures { (passed result pool.new ≡ place_in L point.now location pool.old) × (work.new ≡ pool.old) }
{
    copy(work, pool);
    let added = Record {
        form: f,
        point,
        location,
    };
    let placed = place_steps(pool, &added);
    if placed.is_err() {
        copy(pool, work);
    }
    placed
}

// The n words behind the wd words at word a move down over them.
#[tactic(auto, using(crate::proofs::Laws::down_end, crate::proofs::Laws::down_next))]
fn move_down(pool: &mut [u32], wd: usize, n: usize, a: usize)
    requires { a + n + wd < 2 ^ 64 }
    ensures { pool.new ≡ down_in wd n pool.old a }
{
    for i in 0..n {
        put(pool, a + i, get(pool, a + i + wd));
    }
}

// The record in a slot of page j goes: later records move down, the last one's words become zero, and page and header count one less.
#[tactic(auto, using(crate::proofs::Laws::far, crate::proofs::Laws::remove_is))]
pub fn remove_in(pool: &mut [u32], f: Form, j: usize, slot: usize)
    requires { Fit pool.old f × ((j < 2 ^ 32) × (slot < 2 ^ 32)) }
    ensures { pool.new ≡ remove_in L j slot pool.old }
{
    let wd = f.domains + 1;
    let count = get(pool, 4);
    let m = word(pool, j, 1);
    let first = 32 * j + 4;
    let a = first + slot * wd;
    let n = (first + m * wd).saturating_sub(a + wd);
    move_down(pool, wd, n, a);
    clear(pool, a + n, a + n + wd);
    put(pool, 32 * j + 1, m.saturating_sub(1));
    put(pool, 4, count.saturating_sub(1));
}
