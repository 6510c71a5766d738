#![tactic(auto)]

// The tests that calls begin with.
ghost use Rattle.std.specs.Prelude.{[], ◌∷◌, ◌++◌};
ghost use Rattle.kdb.specs.Print.{sound};
ghost use Rattle.kdb.specs.declared.Refusal.TheVariants.{Unsound};
ghost use Rattle.kdb.specs.Calls.{L, ◌or◌, head_tests};
ghost use Rattle.opening.specs.Opens.{Opens};

use audit::audit;
use kdb::Refusal;
use words::{Pool, all_finite};

// The tests that all calls but format begin with: length and header of the pool, whether what is lent fits, and keys or window ends.
pub fn open_pool<'a>(words: &'a [u32], fits: bool, ends: &[u32]) -> Result<Pool<'a>, Refusal>
    ensures { Opens words.now (head_tests words.now fits ends.now) result }
{
    let pool = Pool::open(words)?;
    if !fits {
        return Err(Refusal::BufferLength);
    }
    if !all_finite(ends) {
        return Err(Refusal::InfiniteKey);
    }
    Ok(pool)
}

// And that the pool is sound.
pub fn open_sound<'a>(words: &'a [u32], fits: bool, ends: &[u32]) -> Result<Pool<'a>, Refusal>
    ensures { Opens words.now (head_tests words.now fits ends.now ++ ((sound L words.now or Unsound) ∷ [])) result }
{
    let pool = open_pool(words, fits, ends)?;
    if !audit(&pool) {
        return Err(Refusal::Unsound);
    }
    Ok(pool)
}
