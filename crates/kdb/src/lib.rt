#![tactic(auto)]

// Definitions and theorems: what the signal index means; and the types that definitions and code share.
ghost use Rattle.std.specs.Prelude.{◌≡◌};
ghost use Rattle.kdb.specs.Calls.{number_of};

// Why a call was refused, in the order of document 01's numbers.
#[derive(Clone, Copy, Debug, PartialEq, Eq)]
pub enum Refusal {
    PoolLength,
    Domains,
    BufferLength,
    InfiniteKey,
    WindowOrder,
    Unsound,
    Present,
    Absent,
    NoFreePage,
}

// The number of a refusal.
impl From<Refusal> for u32 {
    ghost from_gives = { λ r n. n ≡ number_of r };

    fn from(r: Refusal) -> u32 {
        match r {
            Refusal::PoolLength => 1,
            Refusal::Domains => 2,
            Refusal::BufferLength => 3,
            Refusal::InfiniteKey => 4,
            Refusal::WindowOrder => 5,
            Refusal::Unsound => 6,
            Refusal::Present => 7,
            Refusal::Absent => 8,
            Refusal::NoFreePage => 9,
        }
    }
}

// The form of a pool: how many pages it has, and how many domains.
#[derive(Clone, Copy, Debug, PartialEq, Eq)]
pub struct Form {
    pub pages: usize,
    pub domains: usize,
}
