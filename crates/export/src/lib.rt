#![tactic(auto)]

// The six calls for C and Rust, as include/korytanka.h has them. No call asks anything of its caller.
ghost use Rattle.std.specs.Prelude.{[], ◌∷◌, ◌≡◌};
ghost use Rattle.kdb.specs.Calls.{format, check, place, remove, find, list, Buffers, alone, working, answering, Promise};
ghost use Rattle.opening.specs.Opens.{finished_as};
ghost use Rattle.export.specs.Crossing.{crossed};

use index::{format, place, remove};
use kdb::Refusal;
use query::{check, find, list};

// A remove's number and location. In each of these a field behind the number is 0 after a refusal.
#[repr(C)]
#[derive(Clone, Copy, Debug, Default, PartialEq, Eq)]
pub struct Removal {
    pub number: u32,
    pub location: u32,
}

// A find's number, location and pages read.
#[repr(C)]
#[derive(Clone, Copy, Debug, Default, PartialEq, Eq)]
pub struct Finding {
    pub number: u32,
    pub location: u32,
    pub reads: u32,
}

// A list's number, total and pages read.
#[repr(C)]
#[derive(Clone, Copy, Debug, Default, PartialEq, Eq)]
pub struct Listing {
    pub number: u32,
    pub total: u32,
    pub reads: u32,
}

// The number of an answer without values.
fn told(a: Result<(), Refusal>) -> u32
    ensures { (b : Buffers) → crossed result [] b ≡ finished_as a b }
{
    match a {
        Ok(()) => 0,
        Err(r) => u32::from(r),
    }
}

#[unsafe(no_mangle)]
pub extern "C" fn korytanka_format(pool: &mut [u32], k: u32) -> u32
    ensures { Promise pool.old (format k) (crossed result [] (alone pool.new)) }
{
    told(format(pool, k as usize))
}

#[unsafe(no_mangle)]
pub extern "C" fn korytanka_check(pool: &[u32]) -> u32
    ensures { Promise pool.now check (crossed result [] (alone pool.now)) }
{
    told(check(pool))
}

#[unsafe(no_mangle)]
pub extern "C" fn korytanka_place(
    pool: &mut [u32],
    work: &mut [u32],
    point: &[u32],
    location: u32,
) -> u32
    ensures { Promise pool.old (place work.old point.now location) (crossed result [] (working work.new pool.new)) }
{
    told(place(pool, work, point, location))
}

#[unsafe(no_mangle)]
pub extern "C" fn korytanka_remove(pool: &mut [u32], point: &[u32]) -> Removal
    ensures { Promise pool.old (remove point.now) (crossed result.number (result.location ∷ []) (alone pool.new)) }
{
    match remove(pool, point) {
        Ok(location) => Removal {
            number: 0,
            location,
        },
        Err(r) => Removal {
            number: u32::from(r),
            ..Removal::default()
        },
    }
}

#[unsafe(no_mangle)]
pub extern "C" fn korytanka_find(pool: &[u32], point: &[u32]) -> Finding
    ensures { Promise pool.now (find point.now) (crossed result.number (result.location ∷ result.reads ∷ []) (alone pool.now)) }
{
    match find(pool, point) {
        Ok(f) => Finding {
            number: 0,
            location: f.location,
            reads: f.reads as u32,
        },
        Err(r) => Finding {
            number: u32::from(r),
            ..Finding::default()
        },
    }
}

#[unsafe(no_mangle)]
pub extern "C" fn korytanka_list(pool: &[u32], window: &[u32], answer: &mut [u32]) -> Listing
    ensures { Promise pool.now (list window.now answer.old) (crossed result.number (result.total ∷ result.reads ∷ []) (answering answer.new pool.now)) }
{
    match list(pool, window, answer) {
        Ok(l) => Listing {
            number: 0,
            total: l.total as u32,
            reads: l.reads as u32,
        },
        Err(r) => Listing {
            number: u32::from(r),
            ..Listing::default()
        },
    }
}
