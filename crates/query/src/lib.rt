#![tactic(auto)]

// The public calls that leave the pool as it is: check, find and list. They have no requires: every input has an answer, and the promise
// says which.
ghost use Rattle.std.specs.Prelude.{◌≡◌};
ghost use Rattle.kdb.specs.Calls.{check, find, list, alone, answering, Promise};
ghost use Rattle.opening.specs.Opens.{finished_as};
ghost use Rattle.query.specs.Answers.{found_as, listed_as};

use boxes::Sides;
use kdb::Refusal;
use opening::{open_pool, open_sound};
use walk::{list_walk, search};
use words::form_of;

// What find found: the record's location, and how many pages it read.
#[derive(Clone, Copy, Debug, PartialEq, Eq)]
pub struct Found {
    pub location: u32,
    pub reads: usize,
}

// What list counted: the records in the window, and the pages that it read.
#[derive(Clone, Copy, Debug, PartialEq, Eq)]
pub struct Listed {
    pub total: usize,
    pub reads: usize,
}

// Whether the pool is sound.
#[tactic(auto, unfolding(kdb::specs::Calls::outcome))]
pub fn check(pool: &[u32]) -> Result<(), Refusal>
    ensures { Promise pool.now check (finished_as result (alone pool.now)) }
{
    open_sound(pool, true, &[])?;
    Ok(())
}

// The location of the record with the point's keys, and the pages read.
#[tactic(auto, unfolding(kdb::specs::Calls::outcome))]
pub fn find(pool: &[u32], point: &[u32]) -> Result<Found, Refusal>
    ensures { Promise pool.now (find point.now) (found_as result (alone pool.now)) }
{
    let fits = point.len() == form_of(pool).domains;
    let pool = open_pool(pool, fits, point)?;
    let hit = search(&pool, point)?;
    Ok(Found {
        location: hit.location,
        reads: hit.reads,
    })
}

// The number of records in the window and the pages read; the answer takes the first locations in walk order, or 0 in every slot where
// the walk stopped at a bad page or at the bound.
#[tactic(auto, using(crate::proofs::Laws::filling), unfolding(kdb::specs::Calls::outcome))]
pub fn list(pool: &[u32], window: &[u32], answer: &mut [u32]) -> Result<Listed, Refusal>
    ensures { Promise pool.now (list window.now answer.old) (listed_as result (answering answer.new pool.now)) }
{
    let fits = window.len() == 2 * form_of(pool).domains;
    let pool = open_pool(pool, fits, window)?;
    let window = Sides::window(window, pool.domains());
    if !window.is_ordered() {
        return Err(Refusal::WindowOrder);
    }
    match list_walk(&pool, &window, answer) {
        Ok(tally) => Ok(Listed {
            total: tally.total,
            reads: tally.reads,
        }),
        Err(stopped) => {
            answer.fill(0);
            Err(stopped.into())
        }
    }
}
