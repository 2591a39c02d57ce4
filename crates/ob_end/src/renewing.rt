//! An epoch's writes, and the buckets filled anew.

ghost use Rattle.std.specs.Prelude.{◌≡◌, ◌<◌, ◌≤◌, ◌+◌, ◌*◌, ◌^◌, ℕ, length, replicate, Err, MatchResult};
ghost use Rattle.ob_base.specs.declared.fault.Fault.TheVariants as fault;
ghost use Rattle.ob_base.specs.Tree.{buckets};
ghost use Rattle.ob_fetch.specs.Fetches.{DrawsWords, words_since};
ghost use Rattle.ob_ring.specs.FlatTable.{FlatTable, Refill, after, stash_size};
ghost use Rattle.ob_ring.specs.Ring.{IsListed, StandsFor};
ghost use Rattle.ob_ring.specs.Writing.{write_at};
ghost use Rattle.ob_end.specs.Renewals.{HasItsRows, RenewAnswers, Renews, end_seals, end_words, own_words, refill_words, renewed_writes, table_behind_writes};

use ob_base::{Fault, NUMBER_LIMIT, Params, StashFull, Write, checkpoint_cells};
use ob_fetch::{draw_front, front};
use ob_ring::{Index, Ring, Steps};
use ob_seal::{Sealer, Tape};
use std::sync::ledger::{Blank, Ledger};

// What is answered of the filled buckets, where so many seals are needed from this number on.
fn judge(filled: Result<(), StashFull>, next: u64, seals: u64) -> Result<(), Fault>
    requires next { next ≤ 2 ^ 62 }
    ensures { (size room : ℕ)
        → MatchResult filled (λ _. size ≤ room) (λ full. (full.rows ≡ size) × (room < full.rows))
        → RenewAnswers size room next seals result }
{
    match filled {
        Ok(()) => {}
        Err(full) => return Err(Fault::from(full)),
    }
    if NUMBER_LIMIT - next < seals {
        return Err(Fault::Worn {
            number: NUMBER_LIMIT,
        });
    }
    Ok(())
}

/// Makes an epoch's writes and fills the lifted buckets anew, after the final lifts were read. It
/// draws a word for each place that a write may have, of which the i-th write takes the i-th, and
/// then a word for each slot of the listed buckets, in their order; `drawn` counts them. All counts
/// of `index` are 0, before and behind. It touches no store, and takes no memory.
///
/// # Errors
/// Worn with `2^62` where fewer words than these are left below that: then nothing was done. Else,
/// once all was made: `StashFull` exactly where more rows are left than the stash may keep; or else
/// Worn with `2^62` exactly where fewer seals are left below that than the buckets' slots and the
/// checkpoint's cells need.
pub fn renew<T: Tape, C: Ledger>(
    tape: &mut T,
    ring: &mut Ring,
    index: &mut Index,
    words: &mut Vec<u64>,
    p: &Params,
    sealer: &Sealer,
    drawn: &mut u64,
    writes: &[Write],
    blank: Blank,
) -> Result<(), Fault>
    requires ledger { blank.name ≡ C.name }
    requires parts { (blank.parts ≡ C.parts) × (0 < blank.parts) }
    requires index { index.old ≡ replicate (buckets ring.old.p) 0 }
    requires params { p.now ≡ ring.old.p }
    requires listed { IsListed ring.old }
    requires stash { HasItsRows ring.old }
    requires drawn { drawn.old ≡ length (T.drawn tape.old) }
    requires small { drawn.old ≤ 2 ^ 62 }
    requires own_room { ring.old.p.writes ≤ length words.old.items }
    requires room { refill_words ring.old ≤ length words.old.items }
    requires few { length writes.now ≤ ring.old.p.writes }
    requires keys { (i : ℕ) → i < length writes.now
        → (write_at writes.now i).key < ring.old.p.keys }
    ensures index { index.new ≡ index.old }
    ensures same { T.present tape.new ≡ T.present tape.old }
    ensures counted { drawn.new ≡ length (T.drawn tape.new) }
    ensures words { length words.new.items ≡ length words.old.items }
    ensures worn { 2 ^ 62 < drawn.old + end_words ring.old → (result ≡ Err (fault.Worn (2 ^ 62)))
        × (tape.new ≡ tape.old) × (ring.new ≡ ring.old) }
    ensures draws { drawn.old + end_words ring.old ≤ 2 ^ 62
        → DrawsWords (end_words ring.old) (T.drawn tape.old) (T.drawn tape.new) }
    // The words are the tape's own, in the order in which they are taken.
    ensures renews { drawn.old + end_words ring.old ≤ 2 ^ 62
        → Renews writes.now (words_since (T.drawn tape.old) (T.drawn tape.new))
        sealer.now.generation drawn.old sealer.now.next ring.old ring.new }
    ensures answers { drawn.old + end_words ring.old ≤ 2 ^ 62 → (t : FlatTable)
        → StandsFor ring.old t
        → RenewAnswers (stash_size ring.old.p (after ring.old.p (table_behind_writes ring.old
        (renewed_writes ring.old writes.now (own_words ring.old (T.drawn tape.old)
        (T.drawn tape.new)) sealer.now.generation drawn.old) t) Refill)) ring.old.p.room
        sealer.now.next (end_seals ring.old) result }
{
    let mut steps = Steps::<C>::none(blank);
    let (generation, next) = sealer.next();
    let many = ring.to_refill().len() * (p.real + p.dummies) as usize;
    let own = p.writes as usize;
    let first = *drawn;
    if NUMBER_LIMIT - first < (own + many) as u64 {
        return Err(Fault::Worn {
            number: NUMBER_LIMIT,
        });
    }
    draw_front(tape, words, own);
    ring.apply_writes(writes, front(words, own), (generation, first));
    ring.tables();
    draw_front(tape, words, many);
    *drawn = first + (own + many) as u64;
    let filled = ring.refill_indexed(index, front(words, many), (generation, next), &mut steps);
    ring.tables();
    judge(filled, next, many as u64 + checkpoint_cells(p))
}
