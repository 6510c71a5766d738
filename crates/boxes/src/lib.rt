#![tactic(auto)]

// Regions and windows: their lower and their upper ends, and the tests of keys, regions and windows, domain by domain.
ghost use Rattle.std.specs.Prelude.{◌≡◌, ◌*◌, ◌≤◌, length};
ghost use Rattle.kdb.specs.Box.{Box, sides, within, in_window, meets};
ghost use Rattle.kdb.specs.Calls.{window_of, ordered};
ghost use Rattle.words.specs.Words.{region_at, RegionIn};

use std::marker::Model;

// The ends of a region or of a window, one of each for each of at most four domains.
#[derive(Drop)]
pub struct Sides<'a> {
    pub low: &'a [u32],
    pub high: &'a [u32],
}

impl<'a> Model for Sides<'a> {
    ghost Value = { Box };

    ghost view = { λ s. sides s.low.now s.high.now };

    ghost invariant = { λ s. (length s.low.now ≡ length s.high.now) × (length s.low.now ≤ 4) };
}

impl<'a> Sides<'a> {
    // The region of k domains at word `at`.
    pub fn region(words: &'a [u32], k: usize, at: usize) -> Sides<'a>
        requires { RegionIn words.now k at }
        ensures { (result ≡ region_at k words.now at) × (length result ≡ k) }
    {
        Sides {
            low: &words[at..at + k],
            high: &words[at + k..at + 2 * k],
        }
    }

    // The window of k lower and k upper ends.
    pub fn window(ends: &'a [u32], k: usize) -> Sides<'a>
        requires ends { length ends.now ≡ 2 * k }
        requires few { k ≤ 4 }
        ensures { (result ≡ window_of k ends.now) × (length result ≡ k) }
    {
        Sides {
            low: &ends[..k],
            high: &ends[k..],
        }
    }

    // The region holds the point: lower ≤ key < upper in each domain. Here and in the next two no domain decides a branch.
    pub fn holds(&self, point: &[u32]) -> bool
        requires { length point.now ≡ length self.now }
        ensures { result ≡ within self.now point.now }
    {
        self.low.iter().zip(self.high).zip(point).fold(
            true,
            |ok, ((low, high), key)| ok & ((*low <= *key) & (*key < *high)),
        )
    }

    // The window holds the keys: lower ≤ key ≤ upper in each domain.
    pub fn takes(&self, keys: &[u32]) -> bool
        requires { length keys.now ≡ length self.now }
        ensures { result ≡ in_window self.now keys.now }
    {
        self.low.iter().zip(self.high).zip(keys).fold(
            true,
            |ok, ((low, high), key)| ok & ((*low <= *key) & (*key <= *high)),
        )
    }

    // The region meets the window: in each domain the larger lower end lies in both.
    pub fn meets(&self, window: &Sides) -> bool
        requires { length window.now ≡ length self.now }
        ensures { result ≡ meets self.now window.now }
    {
        let region = self.low.iter().zip(self.high);
        let window = window.low.iter().zip(window.high);
        region
            .zip(window)
            .fold(true, |ok, ((low, high), (from, to))| {
                let larger = (*low).max(*from);
                ok & ((larger < *high) & (larger <= *to))
            })
    }

    // No lower end of the window is above its upper end.
    pub fn is_ordered(&self) -> bool
        ensures { result ≡ ordered self.now }
    {
        self.low
            .iter()
            .zip(self.high)
            .all(|(low, high)| *low <= *high)
    }
}
