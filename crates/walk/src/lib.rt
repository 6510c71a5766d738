#![tactic(auto)]

// The walks over a pool's pages: the one search for a point, and list's walk of a window.
ghost use Rattle.std.specs.Prelude.{◌≡◌, cond, ◌+◌, ◌*◌, ◌-◌, ◌≤◌, ◌<◌, ◌^◌, IfOk, IfSome, length, set, unwrap_or};
ghost use Rattle.kdb.specs.Box.{in_window};
ghost use Rattle.kdb.specs.Pool.{domains, pages_in, is_page};
ghost use Rattle.kdb.specs.Walk.{spots, spot_of, seek, find_walk, list_walk};
ghost use Rattle.kdb.specs.Calls.{L};
ghost use Rattle.walk.specs.Pages.{kind_words, entries_of, records_of, Inside, reached};
ghost use Rattle.walk.specs.Seek.{child_of, ended, sought_as, refusal_of};
ghost use Rattle.walk.specs.List.{Kept, Entered, entered, found_in, children_met, seen, toured, walked};
ghost use Rattle.walk.specs.declared.Missed.TheVariants.{Bad};
ghost use Rattle.kdb.specs.declared.Refusal.TheVariants.{Unsound};

use boxes::Sides;
use kdb::Refusal;
use words::{Kind, Pool};

// Where a search found the point's record, and the pages read.
#[derive(Clone, Copy, Debug, PartialEq, Eq)]
pub struct Hit {
    pub page: usize,
    pub slot: usize,
    pub location: u32,
    pub reads: usize,
}

// Why a search found none: the point page that it came to lacks the point; a bad page; or there is no root.
#[derive(Clone, Copy, Debug, PartialEq, Eq)]
pub enum Missed {
    Absent { page: usize, reads: usize },
    Bad { reads: usize },
    NoRoot,
}

impl From<Missed> for Refusal {
    ghost from_gives = { λ m r. r ≡ refusal_of m };

    fn from(m: Missed) -> Refusal {
        match m {
            Missed::Absent { .. } | Missed::NoRoot => Refusal::Absent,
            Missed::Bad { .. } => Refusal::Unsound,
        }
    }
}

// What list's walk has counted.
#[derive(Clone, Copy, Debug, PartialEq, Eq)]
pub struct Tally {
    pub reads: usize,
    pub total: usize,
}

// A walk that has stopped, at a bad page or at the bound, with the pages read.
#[derive(Clone, Copy, Debug, PartialEq, Eq)]
pub struct Stopped {
    pub reads: usize,
}

impl From<Stopped> for Refusal {
    ghost from_gives = { λ _ r. r ≡ Unsound };

    fn from(_s: Stopped) -> Refusal {
        Refusal::Unsound
    }
}

impl From<Stopped> for Missed {
    ghost from_gives = { λ s m. m ≡ Bad s.reads };

    fn from(s: Stopped) -> Missed {
        Missed::Bad { reads: s.reads }
    }
}

// Page j is of the kind, with a count within R from 1, or within P.
fn is_of(pool: &Pool, kind: Kind, j: usize) -> bool
    requires { (j < 2 ^ 32) × (j < pages_in L pool.now) }
    ensures { result ≡ kind_words pool.now (domains pool.now) kind j }
{
    let count = pool.read(32 * j + 1);
    (pool.read(32 * j) == kind as usize)
        & ((kind == Kind::Point) | (1 <= count))
        & (count <= kind.capacity(pool.domains()))
}

// Reads page j, which is to be of the kind: the pages read with it.
fn read_page(pool: &Pool, kind: Kind, j: usize, reads: usize) -> Result<usize, Stopped>
    requires { (j < 2 ^ 32) × (reads < 2 ^ 32) }
    ensures { (result ≡ reached pool.now kind j reads) × IfOk result (λ n. (n ≡ reads + 1) × Inside pool.now kind j) }
{
    if !(1..pool.form.pages).contains(&j) {
        return Err(Stopped { reads });
    }
    if !is_of(pool, kind, j) {
        return Err(Stopped { reads: reads + 1 });
    }
    Ok(reads + 1)
}

// A point that is sought in a pool.
#[derive(Drop)]
struct Sought<'a> {
    pool: &'a Pool<'a>,
    point: &'a [u32],
    ghost fits: { length point.now ≡ domains pool.now },
}

impl Sought<'_> {
    // The child in the first entry of page j, in page order, whose region holds the point.
    #[tactic(auto, using(crate::proofs::Seek::child_here, crate::proofs::Seek::child_next))]
    fn child(&self, j: usize) -> Option<usize>
        requires { Inside self.now.pool.now Kind.Region j }
        ensures { (unwrap_or result 0 ≡ child_of self.now.point.now (entries_of self.now.pool.now j)) × IfSome result (λ i. i < 2 ^ 32) }
    {
        let pool = self.pool;
        let k = pool.domains();
        for e in 0..pool.read(32 * j + 1) {
            let at = 32 * j + 4 + e * (2 * k + 1);
            if Sides::region(pool.words, k, at).holds(self.point) {
                return Some(pool.read(at + 2 * k));
            }
        }
        None
    }

    // The first record of page j, in page order, with the point's keys.
    #[tactic(auto, using(crate::proofs::Seek::same_keys, crate::proofs::Seek::record_here, crate::proofs::Seek::record_next))]
    fn record(&self, j: usize, reads: usize) -> Result<Hit, Missed>
        requires { Inside self.now.pool.now Kind.Point j }
        ensures { result ≡ ended reads (spot_of j self.now.point.now (spots j 0 (records_of self.now.pool.now j))) }
    {
        let pool = self.pool;
        let count = pool.read(32 * j + 1);
        for slot in 0..count {
            if self.point == pool.keys(j, slot) {
                return Ok(Hit {
                    page: j,
                    slot,
                    location: pool.location(j, slot),
                    reads,
                });
            }
        }
        Err(Missed::Absent { page: j, reads })
    }

    // From page j down: at each level into the first entry that holds the point.
    #[tactic(auto, using(crate::proofs::Seek::level_bad, crate::proofs::Seek::level_next, crate::proofs::Seek::level_lost, crate::proofs::Seek::last_bad, crate::proofs::Seek::last_good))]
    fn descend(&self, root: usize, levels: usize) -> Result<Hit, Missed>
        requires { (root < 2 ^ 32) × (levels < 2 ^ 32) }
        ensures { result ≡ sought_as 0 (seek L self.now.pool.now self.now.point.now (levels - 1) root) }
    {
        let mut j = root;
        let mut reads = 0;
        for _ in 1..levels {
            reads = read_page(self.pool, Kind::Region, j, reads)?;
            j = self.child(j).ok_or(Missed::Bad { reads })?;
        }
        reads = read_page(self.pool, Kind::Point, j, reads)?;
        self.record(j, reads)
    }
}

// The search for a point in a pool.
pub fn search(pool: &Pool, point: &[u32]) -> Result<Hit, Missed>
    requires { length point.now ≡ domains pool.now }
    ensures { result ≡ sought_as 0 (find_walk L pool.now point.now) }
{
    let levels = pool.levels();
    if levels == 0 {
        return Err(Missed::NoRoot);
    }
    // The whole point: the compiler now knows its length.
    let point = &point[..pool.domains()];
    Sought { pool, point }.descend(pool.root(), levels)
}

// List's walk reads page j, if the bound allows one more: the state with it.
fn enter(pool: &Pool, kind: Kind, j: usize, s: Tally) -> Result<Tally, Stopped>
    requires { (j < 2 ^ 32) × Kept (pages_in L pool.now) s }
    ensures { (result ≡ entered pool.now kind j s) × IfOk result (Entered pool.now kind j) }
{
    if pool.pages() <= s.reads + 1 {
        return Err(Stopped { reads: s.reads });
    }
    Ok(Tally {
        reads: read_page(pool, kind, j, s.reads)?,
        total: s.total,
    })
}

// The one place where it holds, else the other. A word is chosen by its place, since an `if` between two words makes a branch, and list a
// quarter slower.
fn either<'a>(holds: bool, one: &'a u32, other: &'a u32) -> &'a u32
    ensures { result.now ≡ cond holds one.now other.now }
{
    if holds { one } else { other }
}

// One record: the total after it, with its location in its slot of the answer. A slot is written in either case, as it was or anew: the
// records decide no branch.
fn visit(window: &Sides, answer: &mut [u32], keys: &[u32], location: &u32, total: usize) -> usize
    requires { (length keys.now ≡ length window.now) × (total < 2 ^ 40) }
    ensures { (result ≡ cond (in_window window.now keys.now) (total + 1) total)
        × ((answer.new ≡ cond (in_window window.now keys.now) (set answer.old total location.now) answer.old) × (result ≤ total + 1)) }
{
    let held = window.takes(keys);
    if total < answer.len() {
        answer[total] = *either(held, location, &answer[total]);
    }
    total + usize::from(held)
}

// A window that is walked in a pool.
#[derive(Drop)]
struct Tour<'a> {
    pool: &'a Pool<'a>,
    window: &'a Sides<'a>,
    ghost fits: { length window.now ≡ domains pool.now },
}

impl Tour<'_> {
    // A copy of the window, as long as there are domains: the compiler then knows its length, and that no store changes it.
    #[tactic(auto, using(boxes::proofs::Tests::long, std::proofs::Common::take_all))]
    fn own_window(&self) -> Sides<'_>
        ensures { (result ≡ self.now.window.now) × (length result ≡ domains self.now.pool.now) }
    {
        let k = self.pool.domains();
        let window = self.window;
        Sides {
            low: &window.low[..k],
            high: &window.high[..k],
        }
    }

    // The records of point page j that the window holds.
    #[tactic(auto, using(crate::proofs::List::record_words, crate::proofs::List::note_next))]
    fn points(&self, answer: &mut [u32], j: usize, total: usize) -> usize
        requires { Inside self.now.pool.now Kind.Point j × (total < 2 ^ 32) }
        ensures { ((result, answer.new) ≡ found_in self.now.pool.now (domains self.now.pool.now) self.now.window.now j total answer.old) × (result ≤ total + 28) }
    {
        let pool = self.pool;
        let k = pool.domains();
        let words = pool.words;
        let window = self.own_window();
        let mut t = total;
        for slot in 0..pool.read(32 * j + 1) {
            let at = 32 * j + 4 + slot * (k + 1);
            t = visit(&window, answer, &words[at..at + k], &words[at + k], t);
        }
        t
    }

    // A page of the last level.
    fn leaf(&self, answer: &mut [u32], j: usize, s: Tally) -> Result<Tally, Stopped>
        requires { (j < 2 ^ 32) × Kept (pages_in L self.now.pool.now) s }
        ensures { (seen result answer.new ≡ toured self.now.pool.now self.now.window.now s answer.old 0 j) × IfOk result (Kept (pages_in L self.now.pool.now)) }
    {
        let t = enter(self.pool, Kind::Point, j, s)?;
        Ok(Tally {
            reads: t.reads,
            total: self.points(answer, j, t.total),
        })
    }

    // The children of region page j whose regions meet the window, in page order, in the front of `child`. Every entry's child is written,
    // and the next one over it if it does not meet: the regions decide no branch.
    #[tactic(auto, using(crate::proofs::List::children_next, crate::proofs::List::one, crate::proofs::Pages::entries_few))]
    fn meeting<'c>(&self, j: usize, child: &'c mut [u32]) -> &'c [u32]
        requires { Inside self.now.pool.now Kind.Region j × (9 ≤ length child.old) }
        ensures { result.now ≡ children_met self.now.window.now (entries_of self.now.pool.now j) }
    {
        let pool = self.pool;
        let k = pool.domains();
        let words = pool.words;
        let window = self.own_window();
        let mut m = 0;
        for e in 0..pool.read(32 * j + 1) {
            let at = 32 * j + 4 + e * (2 * k + 1);
            child[m] = words[at + 2 * k];
            m += usize::from(Sides::region(words, k, at).meets(&window));
        }
        &child[..m]
    }

    // A region page, and before the next page the pages below it that meet the window.
    #[tactic(auto, using(crate::proofs::List::page_bad))]
    #[cycle(levels)]
    fn page(&self, answer: &mut [u32], level: usize, j: usize, s: Tally) -> Result<Tally, Stopped>
        requires { (1 < level) × ((j < 2 ^ 32) × Kept (pages_in L self.now.pool.now) s) }
        ensures { (seen result answer.new ≡ toured self.now.pool.now self.now.window.now s answer.old (level - 1) j) × IfOk result (Kept (pages_in L self.now.pool.now)) }
    {
        let mut t = enter(self.pool, Kind::Region, j, s)?;
        // R is at most 9.
        let mut room = [0; 9];
        for i in self.meeting(j, &mut room) {
            t = self.subtree(answer, level - 1, *i as usize, t)?;
        }
        Ok(t)
    }

    // Page j, which has that many levels, and those below it that meet the window. Inlined, since a page would cost two calls otherwise.
    #[cycle(levels)]
    #[inline(always)]
    fn subtree(
        &self,
        answer: &mut [u32],
        levels: usize,
        j: usize,
        s: Tally,
    ) -> Result<Tally, Stopped>
        requires { (1 ≤ levels) × ((j < 2 ^ 32) × Kept (pages_in L self.now.pool.now) s) }
        ensures { (seen result answer.new ≡ toured self.now.pool.now self.now.window.now s answer.old (levels - 1) j) × IfOk result (Kept (pages_in L self.now.pool.now)) }
    {
        if levels == 1 {
            self.leaf(answer, j, s)
        } else {
            self.page(answer, levels, j, s)
        }
    }
}

// List's walk of a window in a pool, its reads limited by the pages less 1.
pub fn list_walk(pool: &Pool, window: &Sides, answer: &mut [u32]) -> Result<Tally, Stopped>
    requires { length window.now ≡ domains pool.now }
    ensures { seen result answer.new ≡ walked answer.old (list_walk L pool.now window.now) }
{
    let levels = pool.levels();
    let s = Tally { reads: 0, total: 0 };
    if levels == 0 {
        return Ok(s);
    }
    Tour { pool, window }.subtree(answer, levels, pool.root(), s)
}
