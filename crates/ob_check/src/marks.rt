//! Marks of the keys and slots that were met before.

ghost use Rattle.std.specs.Prelude.{◌≡◌, ◌<◌, ◌≤◌, ◌∷◌, ◌++◌, [], ℕ, List, true, not, length, replicate, false, unwrap_or};
ghost use Rattle.std.specs.List.{find};
ghost use Rattle.ob_base.specs.Tree.{below, width};
ghost use Rattle.ob_check.specs.Rules.{is_among, least_rank, may_rank};
ghost use Rattle.ob_check.specs.Marks.{AreMarked};

use ob_base::Params;

/// Marks a number, if there is room for it.
pub fn mark(marks: &mut [bool], number: u32)
    ensures { (n : ℕ) (xs : List ℕ) → AreMarked n marks.old xs
        → AreMarked n marks.new (xs ++ number ∷ []) }
{
    if (number as usize) < marks.len() {
        marks[number as usize] = true;
    }
}

/// Whether an index may have a rank, where the marked ones are taken.
pub fn may_rank(p: &Params, taken: &[bool], rank: u8) -> bool
    requires { width p.now ≤ length taken.now }
    ensures { (n : ℕ) (xs : List ℕ) → width p.now ≤ n → AreMarked n taken.now xs
        → result ≡ may_rank p.now xs rank }
{
    if rank as u32 >= p.real + p.dummies {
        return false;
    }
    !taken[rank as usize]
}

/// The least rank that isn't marked.
pub fn least_rank(p: &Params, taken: &[bool]) -> u64
    requires { width p.now ≤ length taken.now }
    ensures { (n : ℕ) (xs : List ℕ) → width p.now ≤ n → AreMarked n taken.now xs
        → result ≡ least_rank p.now xs }
{
    for rank in 0..(p.real + p.dummies) as usize {
        if !taken[rank] {
            return rank as u64;
        }
    }
    0
}
