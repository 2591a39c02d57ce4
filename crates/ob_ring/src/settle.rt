//! Rows that were read go to the stash.

ghost use Rattle.std.specs.Prelude.{◌≡◌, ◌≢◌, ℕ, ◌<◌, ◌≤◌, ◌∷◌, ◌++◌, replicate, length, take, None, Some, IfSome, MatchResult};
ghost use Rattle.std.specs.Int.{w32, to_le_bytes};
ghost use Rattle.std.specs.FinMap as finite;
ghost use Rattle.ob_base.specs.Planned.{job_at};
ghost use Rattle.ob_ring.specs.Settling.{key_field, len_field, row_value, other_key, long_row, row_fault, job_damage, first_fault, with_row, rows_after};

use ob_base::{Check, Damaged, Job, Key, Params, Value, set_u32, u32_at};
use ob_tables::Stash;

// A slot holds another key's number than the expected one.
fn other_key(cell: u64, key: Key, plain: &[u8; 96]) -> Damaged
    ensures { result ≡ other_key cell key plain.now }
{
    let mut kept = [0; 16];
    kept[..4].copy_from_slice(&plain[..4]);
    let mut computed = [0; 16];
    set_u32(&mut computed, 0, key);
    Damaged {
        cell,
        check: Check::Form,
        kept,
        computed,
    }
}

// A row's length is above 64.
fn long_row(cell: u64, plain: &[u8; 96]) -> Damaged
    ensures { result ≡ long_row cell plain.now }
{
    let mut kept = [0; 16];
    kept[0] = plain[4];
    Damaged {
        cell,
        check: Check::Form,
        kept,
        computed: [0; 16],
    }
}

// The value of the row that a slot holds for this key.
fn read_row(cell: u64, key: Key, plain: &[u8; 96]) -> Result<Value, Damaged>
    ensures { MatchResult result (λ v. (row_fault cell key plain.now ≡ None)
        × (v ≡ row_value plain.now)) (λ d. row_fault cell key plain.now ≡ Some d) }
{
    if u32_at(plain, 0) != key {
        return Err(other_key(cell, key, plain));
    }
    let len = plain[4] as usize;
    if len > 64 {
        return Err(long_row(cell, plain));
    }
    match Value::new(&plain[5..5 + len]) {
        Some(value) => Ok(value),
        None => Err(long_row(cell, plain)),
    }
}

// Puts the row that a job read into the stash, if it expects one.
fn settle_job(p: &Params, stash: &mut Stash, job: &Job) -> Result<(), Damaged>
    requires key { IfSome job.now.key (λ k. k < p.now.keys) }
    requires low { (k : ℕ) → finite.get stash.old.rows k ≢ None → k < p.now.keys }
    requires room { p.now.keys ≤ stash.old.room }
    ensures low { (k : ℕ) → finite.get stash.new.rows k ≢ None → k < p.now.keys }
    ensures room { stash.new.room ≡ stash.old.room }
    ensures settled { MatchResult result (λ _. (job_damage job.now ≡ None)
        × (stash.new.rows
        ≡ with_row stash.old.rows job.now.key job.now.result)) (λ d. job_damage job.now ≡ Some d) }
{
    if let Some(key) = job.key {
        if let Some(plain) = &job.result {
            let value = read_row(job.cell, key, plain)?;
            stash.put(key, value);
        }
    }
    Ok(())
}

/// Puts the rows that jobs read into the stash.
///
/// # Errors
/// The first slot that should hold a row and doesn't.
pub(crate) fn settle_jobs(p: &Params, stash: &mut Stash, jobs: &[Job]) -> Result<(), Damaged>
    requires keys { (i : ℕ) → IfSome (job_at jobs.now i).key (λ k. k < p.now.keys) }
    requires low { (k : ℕ) → finite.get stash.old.rows k ≢ None → k < p.now.keys }
    requires room { p.now.keys ≤ stash.old.room }
    ensures low { (k : ℕ) → finite.get stash.new.rows k ≢ None → k < p.now.keys }
    ensures room { stash.new.room ≡ stash.old.room }
    ensures settled { MatchResult result (λ _. (first_fault jobs.now ≡ None)
        × (stash.new.rows ≡ rows_after stash.old.rows jobs.now)) (λ d. first_fault jobs.now
        ≡ Some d) }
{
    for i in 0..jobs.len() {
        if let Err(damaged) = settle_job(p, stash, &jobs[i]) {
            return Err(damaged);
        }
    }
    Ok(())
}
