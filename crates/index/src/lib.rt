#![tactic(auto)]

// The public calls that write to the pool: format, place and remove. They have no requires: every input has an answer, and the promise
// says which.
ghost use Rattle.std.specs.Prelude.{◌≡◌};
ghost use Rattle.kdb.specs.Calls.{format, place, remove, alone, working, Promise};
ghost use Rattle.opening.specs.Opens.{finished_as};
ghost use Rattle.index.specs.Answers.{removed_as};

use kdb::Refusal;
use opening::open_sound;
use place::{place_in, remove_in};
use walk::search;
use words::{form_of, page_count};

// Zeroes the pool and writes K and N.
#[tactic(auto, using(crate::proofs::Laws::formats, crate::proofs::Laws::least_words, crate::proofs::Laws::most_pages), unfolding(kdb::specs::Calls::outcome))]
pub fn format(pool: &mut [u32], k: usize) -> Result<(), Refusal>
    ensures { Promise pool.old (format k) (finished_as result (alone pool.new)) }
{
    let n = page_count(pool).ok_or(Refusal::PoolLength)?;
    if !(1..=4).contains(&k) {
        return Err(Refusal::Domains);
    }
    pool.fill(0);
    pool[0] = k as u32;
    pool[1] = n as u32;
    Ok(())
}

// Places a record. After Ok and after NoFreePage work holds the pool as it stood before; the pool changes only where it is placed.
#[tactic(auto, unfolding(kdb::specs::Calls::outcome))]
pub fn place(
    pool: &mut [u32],
    work: &mut [u32],
    point: &[u32],
    location: u32,
) -> Result<(), Refusal>
    ensures { Promise pool.old (place work.old point.now location) (finished_as result (working work.new pool.new)) }
{
    let f = form_of(pool);
    let fits = (point.len() == f.domains) & (work.len() == pool.len());
    let sound = open_sound(pool, fits, point)?;
    if search(&sound, point).is_ok() {
        return Err(Refusal::Present);
    }
    place_in(pool, work, f, point, location)?;
    Ok(())
}

// Removes the record with the point's keys, and answers its location.
#[tactic(auto, unfolding(kdb::specs::Calls::outcome))]
pub fn remove(pool: &mut [u32], point: &[u32]) -> Result<u32, Refusal>
    ensures { Promise pool.old (remove point.now) (removed_as result (alone pool.new)) }
{
    let f = form_of(pool);
    let sound = open_sound(pool, point.len() == f.domains, point)?;
    let hit = search(&sound, point)?;
    remove_in(pool, f, hit.page, hit.slot);
    Ok(hit.location)
}
