#![tactic(auto)]

// Words of a lent pool: what is read and written of a page, and nothing of the tree.
ghost use Rattle.std.specs.Prelude.{◌≡◌, ◌+◌, ◌*◌, ◌-◌, ◌≤◌, ◌<◌, ◌^◌, ℕ, List, IfSome, length, get_or, set, replicate};
ghost use Rattle.std.proofs.lemmas.List.Edits.{sets};
ghost use Rattle.kdb.specs.Pool.{domains, root_at, levels_at, count_at, pages_in, good_header, GoodLength};
ghost use Rattle.kdb.specs.Calls.{L, finite};
ghost use Rattle.words.specs.Words.{word_at, page_count, form_of, opened, capacity_by, code_of, width_of, key_place, location_place, keys_of, point_location, page_or, lowest, all_zero, RecordIn, Fit};

use kdb::{Form, Refusal};
use std::marker::Model;

// The kind of a page, as its first word has it; a page with 0 there is free, and one with any other word is bad.
#[derive(Clone, Copy, Debug, PartialEq, Eq)]
pub enum Kind {
    Region = 1,
    Point = 2,
}

impl Kind {
    // The first word of such a page.
    pub fn code(self) -> u32
        ensures { result ≡ code_of self }
    {
        self as u32
    }

    // Entries a page: R or P.
    pub fn capacity(self, k: usize) -> usize
        requires { (1 ≤ k) × (k ≤ 4) }
        ensures { result ≡ capacity_by self k }
    {
        let row = match self {
            Kind::Region => 0,
            Kind::Point => 1,
        };
        CAPACITIES[row][k - 1] as usize
    }

    // Words an entry: a region with its child, or a record.
    pub fn width(self, k: usize) -> usize
        requires { k ≤ 4 }
        ensures { result ≡ width_of self k }
    {
        match self {
            Kind::Region => 2 * k + 1,
            Kind::Point => k + 1,
        }
    }
}

// Regions and points a page, by K from 1 to 4.
const CAPACITIES: [[u32; 4]; 2] = [[9, 5, 4, 3], [14, 9, 7, 5]];

// An entry of the whole space: of k domains it stands at word 4 - k.
pub const WHOLE: [u32; 9] = [0, 0, 0, 0, u32::MAX, u32::MAX, u32::MAX, u32::MAX, 0];

// The word at `at`, and 0 past the end.
pub fn get(words: &[u32], at: usize) -> usize
    ensures { (result ≡ get_or words.now at 0) × (result < 2 ^ 32) }
{
    match words.get(at) {
        Some(word) => *word as usize,
        None => 0,
    }
}

// Sets the word at `at`, if there is one.
pub fn put(words: &mut [u32], at: usize, v: usize)
    requires { v < 2 ^ 32 }
    ensures { words.new ≡ set words.old at v }
{
    if at < words.len() {
        words[at] = v as u32;
    }
}

// Word i of page j, and 0 past the end.
pub fn word(words: &[u32], j: usize, i: usize) -> usize
    requires { (j < 2 ^ 32) × (i < 2 ^ 32) }
    ensures { (result ≡ word_at words.now j i) × (result < 2 ^ 32) }
{
    get(words, 32 * j + i)
}

// The number of pages of a pool, which is 32 × N words, N 2 to 512.
pub fn page_count(words: &[u32]) -> Option<usize>
    ensures { result ≡ page_count words.now }
{
    let n = words.len() / 32;
    if (words.len() % 32 == 0) & (2 <= n) & (n <= 512) {
        Some(n)
    } else {
        None
    }
}

// The form that the length and the first word of a pool say.
pub fn form_of(words: &[u32]) -> Form
    ensures { (result ≡ form_of words.now) × (result.domains < 2 ^ 32) }
{
    Form {
        pages: words.len() / 32,
        domains: get(words, 0),
    }
}

// The words from `from` to `to` are 0.
pub fn zeros(words: &[u32], from: usize, to: usize) -> bool
    ensures { result ≡ all_zero words.now from (to - from) }
{
    let mut ok = true;
    for i in from..to.min(words.len()) {
        ok &= 0 == words[i];
    }
    ok
}

// The header of a pool, which is n pages long, is good.
pub fn good_header(words: &[u32], n: usize) -> bool
    requires { GoodLength L words.now × (n ≡ pages_in L words.now) }
    ensures { result ≡ good_header L words.now }
{
    let k = words[0] as usize;
    let root = words[2] as usize;
    let levels = words[3] as usize;
    (1 <= k)
        & (k <= 4)
        & (words[1] as usize == n)
        & (root < n)
        & (levels < n)
        & ((root == 0) == (levels == 0))
        & zeros(words, 5, 32)
}

// No word is the word that stands for ∞.
pub fn all_finite(words: &[u32]) -> bool
    ensures { result ≡ finite words.now }
{
    words.iter().all(|word| *word < u32::MAX)
}

// Copies words from the front on, as far as both go: by places, since that compiles to a loop, and the library then needs no `memcpy`.
pub fn copy(to: &mut [u32], from: &[u32])
    ensures { to.new ≡ sets to.old 0 from.now }
{
    for i in 0..to.len().min(from.len()) {
        to[i] = from[i];
    }
}

// Zeroes the words from `from` to `to`.
pub fn clear(words: &mut [u32], from: usize, to: usize)
    ensures { words.new ≡ sets words.old from (replicate (to - from) 0) }
{
    let end = to.min(words.len());
    if from < end {
        words[from..end].fill(0);
    }
}

// The page to claim: the lowest from 1 to n - 1 whose kind is 0.
pub fn lowest_free(words: &[u32], n: usize) -> Option<usize>
    requires { (1 ≤ n) × (n < 2 ^ 32) }
    ensures { (page_or n result ≡ lowest L n words.now) × IfSome result (λ j. (1 ≤ j) × (j < n)) }
{
    (1..n).find(
        |j|
            requires { j.now < 2 ^ 32 }
        { word(words, *j, 0) == 0 },
    )
}

// The domains of a form: from here on the compiler knows that they are 1 to 4.
pub fn domains_of(f: Form) -> usize
    requires { (1 ≤ f.domains) × (f.domains ≤ 4) }
    ensures { result ≡ f.domains }
{
    (f.domains - 1).min(3) + 1
}

// Where key d of the record in a slot of point page j stands: a record is its keys, then its location.
pub fn key_at(f: Form, j: usize, slot: usize, d: usize) -> usize
    requires { (f.domains ≤ 4) × (key_place f.domains j slot d < 2 ^ 64) }
    ensures { result ≡ key_place f.domains j slot d }
{
    32 * j + 4 + slot * (f.domains + 1) + d
}

// Where its location stands.
pub fn location_at(f: Form, j: usize, slot: usize) -> usize
    requires { (f.domains ≤ 4) × (location_place f.domains j slot < 2 ^ 64) }
    ensures { result ≡ location_place f.domains j slot }
{
    key_at(f, j, slot, f.domains)
}

// A pool that is lent to be read, with its form: the words in which page and entry stand lie in it.
#[derive(Drop)]
pub struct Pool<'a> {
    pub words: &'a [u32],
    pub form: Form,
}

impl<'a> Model for Pool<'a> {
    ghost Value = { List ℕ };

    ghost view = { λ p. p.words.now };

    ghost invariant = { λ p. Fit p.words.now p.form };
}

impl<'a> Pool<'a> {
    // A pool of good length with a good header; else why not.
    pub fn open(words: &'a [u32]) -> Result<Pool<'a>, Refusal>
        ensures { result ≡ opened words.now }
    {
        let n = page_count(words).ok_or(Refusal::PoolLength)?;
        if !good_header(words, n) {
            return Err(Refusal::Unsound);
        }
        Ok(Pool {
            words,
            form: form_of(words),
        })
    }

    // The pages, with the header.
    pub fn pages(&self) -> usize
        ensures { (result ≡ pages_in L self.now) × ((2 ≤ result) × (result ≤ 512)) }
    {
        self.form.pages
    }

    // The domains, which are 1 to 4.
    pub fn domains(&self) -> usize
        ensures { (result ≡ domains self.now) × ((1 ≤ result) × (result ≤ 4)) }
    {
        domains_of(self.form)
    }

    // The root's page, 0 where there is none.
    pub fn root(&self) -> usize
        ensures { (result ≡ root_at self.now) × (result < 2 ^ 32) }
    {
        let words = self.words;
        words[2] as usize
    }

    // The levels from the root down; there is room for one page behind the header.
    pub fn levels(&self) -> usize
        ensures { (result ≡ levels_at self.now) × ((result < 2 ^ 32) × (2 ≤ pages_in L self.now)) }
    {
        let words = self.words;
        words[3] as usize
    }

    // The points.
    pub fn count(&self) -> usize
        ensures { (result ≡ count_at self.now) × (result < 2 ^ 32) }
    {
        let words = self.words;
        words[4] as usize
    }

    // The word at `at`, which is one of the pool's.
    pub fn read(&self, at: usize) -> usize
        requires { at < length self.now }
        ensures { (result ≡ get_or self.now at 0) × (result < 2 ^ 32) }
    {
        let words = self.words;
        words[at] as usize
    }

    // The keys of the record in a slot of point page j.
    pub fn keys(&self, j: usize, slot: usize) -> &'a [u32]
        requires { RecordIn self.now (domains self.now) j slot }
        ensures { (result.now ≡ keys_of (domains self.now) self.now j slot) × (length result.now ≡ domains self.now) }
    {
        let words = self.words;
        let k = self.domains();
        let at = key_at(self.form, j, slot, 0);
        &words[at..at + k]
    }

    // Its location.
    pub fn location(&self, j: usize, slot: usize) -> u32
        requires { RecordIn self.now (domains self.now) j slot }
        ensures { result ≡ point_location self.now (domains self.now) j slot }
    {
        let words = self.words;
        words[location_at(self.form, j, slot)]
    }
}
