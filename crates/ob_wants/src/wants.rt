//! What a run shows next, each note with what it changes.

ghost use Rattle.std.specs.Prelude.{◌≡◌, ◌+◌, ◌-◌, ◌≤◌, ◌<◌, ◌^◌, ◌++◌, ◌∷◌, [], drop, OnOk, IfOk};
ghost use Rattle.std.specs.List.{range_with_len};
ghost use Rattle.ob_base.specs.declared.params.Params.{Params};
ghost use Rattle.ob_schedule.specs.Paths.{by_falling_level};
ghost use Rattle.ob_wants.specs.Marked.{writes_marked};
ghost use Rattle.ob_wants.specs.Shown.{standing_of};
ghost use Rattle.ob_schedule.specs.Follow.{started};
ghost use Rattle.ob_schedule.specs.Wants.{kept, setting, sets, record_wants, register_wants, places, found_wants, writes_anew, end_wants};

use crate::leaves::Leaves;
use crate::notes::{
    gate_at, kept, push_body, push_bucket, push_check_reads, push_check_writes, push_copy,
    push_format, push_gates, push_kept, push_log_reads, set_notes,
};
use crate::rows::at_or;
use crate::standing::StandingPlain;
use ob_base::Params;
use ob_schedule::{Change, Gate, Register, Runs, Side, Want};
use ob_store::Note;
use std::alloc::{AllocError, Global};

/// What sets a register, whose gate is closed first.
pub fn set_wants(register: Register, side: Side) -> [Want; 6]
    ensures { (p : Params) → result ≡ setting p register side }
{
    let notes = set_notes(register, side);
    let (opens, made) = match register {
        Register::Generation => (Change::Keeps, Change::SetsGeneration),
        Register::Epoch => (Change::EndsEpoch, Change::Settles),
    };
    [
        Want::Fixed {
            note: notes[0],
            change: Change::Doubts(register),
        },
        Want::Fixed {
            note: notes[1],
            change: Change::Closes(register),
        },
        Want::Fixed {
            note: notes[2],
            change: Change::Keeps,
        },
        Want::Fixed {
            note: notes[3],
            change: Change::Keeps,
        },
        Want::Fixed {
            note: notes[4],
            change: opens,
        },
        Want::Fixed {
            note: notes[5],
            change: made,
        },
    ]
}

// Puts what sets a register behind the list, by what is known of its gate.
fn push_sets(register: Register, side: Side, gate: Gate, wants: &mut Runs) -> Result<(), AllocError>
    ensures { OnOk result ((p : Params) → wants.new ≡ wants.old ++ sets p register side gate) }
{
    let all = set_wants(register, side);
    match gate {
        Gate::Open => wants.push_all(&all),
        Gate::Closed => wants.push_all(&all[2..]),
        Gate::Unsure => wants.push(Want::Setting { register }),
    }
}

/// Puts what an opening shows first behind the list: the reads of the head, of the copy where the
/// run has a mirror, and of the registers.
pub fn push_registers(p: &Params, mirrored: bool, wants: &mut Runs) -> Result<(), AllocError>
    ensures { OnOk result (wants.new ≡ wants.old ++ register_wants p.now mirrored) }
{
    if mirrored {
        wants.push_reads(0, 1)?;
        push_copy(p, wants)?;
        wants.push_reads(1, 8)
    } else {
        wants.push_reads(0, 9)
    }
}

/// A format's notes, each with what it changes.
pub fn format_wants(alloc: Global, p: &Params) -> Result<Runs, AllocError>
    ensures { IfOk result (λ wants. wants ≡ (started p.now).wants) }
{
    let mut wants = Runs::new(alloc);
    push_format(p, &mut wants)?;
    wants.push(Want::Fixed {
        note: Note::Sync,
        change: Change::Formats,
    })?;
    Ok(wants)
}

/// Puts what logs a batch behind the list.
pub fn push_record(p: &Params, side: Side, batch: u32, wants: &mut Runs) -> Result<(), AllocError>
    ensures { OnOk result (wants.new ≡ wants.old ++ record_wants p.now side batch) }
{
    push_body(p, side, batch, wants)?;
    wants.push_all(&[
        kept(Note::Sync),
        Want::Fixed {
            note: Note::Write(gate_at(p, side, batch)),
            change: Change::MayLog,
        },
        Want::Fixed {
            note: Note::Sync,
            change: Change::Logs,
        },
    ])
}

/// Puts the places of a batch, but for the first so many, behind the list.
pub fn push_places(p: &Params, batch: u32, from: u32, wants: &mut Runs) -> Result<(), AllocError>
    ensures { OnOk result (wants.new ≡ wants.old ++ drop from (places p.now batch)) }
{
    for place in from..p.places {
        wants.push(Want::Place { batch, place })?;
    }
    Ok(())
}

/// Puts what an opening shows behind the registers behind the list.
pub fn push_found(p: &Params, found: &StandingPlain, wants: &mut Runs) -> Result<(), AllocError>
    ensures { OnOk result (wants.new ≡ wants.old ++ found_wants p.now (standing_of found.now)) }
{
    push_check_reads(p, found.epoch, wants)?;
    push_log_reads(p, found.epoch.other(), wants)?;
    wants.push(Want::Fixed {
        note: Note::Sync,
        change: Change::Settles,
    })?;
    push_sets(
        Register::Generation,
        found.generation.other(),
        found.generation_gate,
        wants,
    )
}

// Puts the writes of a bucket in its other home behind the list, if it is marked.
fn push_anew(
    p: &Params,
    standing: &StandingPlain,
    lifted: &[bool],
    bucket: u32,
    wants: &mut Runs,
) -> Result<(), AllocError>
    ensures { OnOk result (wants.new
        ≡ wants.old ++ kept (writes_marked p.now (standing_of standing.now) lifted.now
        (bucket ∷ []))) }
{
    if at_or(lifted, bucket as usize, false) {
        return push_bucket(p, standing.home(bucket).other(), bucket, wants);
    }
    Ok(())
}

// Puts the writes of the marked ones of a level's buckets behind the list.
fn push_level(
    p: &Params,
    standing: &StandingPlain,
    lifted: &[bool],
    many: u32,
    wants: &mut Runs,
) -> Result<(), AllocError>
    requires some { 0 < many }
    requires few { many ≤ 65536 }
    ensures { OnOk result (wants.new
        ≡ wants.old ++ kept (writes_marked p.now (standing_of standing.now) lifted.now
        (range_with_len (many - 1) many))) }
{
    for i in 0..many {
        push_anew(p, standing, lifted, many - 1 + i, wants)?;
    }
    Ok(())
}

// The buckets of a level.
#[tactic(auto, using(ob_base::proofs::TreeLaws::one_shifted, ob_base::proofs::Bounds::power_le))]
fn many_on(p: &Params, level: u32) -> u32
    requires { level ≤ p.now.levels }
    ensures many { result ≡ 2 ^ level }
    ensures some { 0 < result }
    ensures few { result ≤ 65536 }
{
    1 << level
}

// Puts the writes of the marked buckets behind the list, by falling level.
fn push_levels(
    p: &Params,
    standing: &StandingPlain,
    lifted: &[bool],
    wants: &mut Runs,
) -> Result<(), AllocError>
    ensures { OnOk result (wants.new
        ≡ wants.old ++ kept (writes_marked p.now (standing_of standing.now) lifted.now
        (by_falling_level (p.now.levels + 1)))) }
{
    for i in 0..p.levels + 1 {
        let many = many_on(p, p.levels - i);
        push_level(p, standing, lifted, many, wants)?;
    }
    Ok(())
}

// Puts the writes of the buckets that an end after these labels writes anew behind the list.
fn push_writes_anew(
    alloc: Global,
    p: &Params,
    standing: &StandingPlain,
    leaves: &Leaves,
    wants: &mut Runs,
) -> Result<(), AllocError>
    ensures { OnOk result (wants.new
        ≡ wants.old ++ kept (writes_anew p.now (standing_of standing.now) leaves.now
        (by_falling_level (p.now.levels + 1)))) }
{
    let lifted = standing.lifted(alloc, p, leaves)?;
    push_levels(p, standing, &lifted, wants)
}

/// Puts what an end writes behind the list.
pub fn push_end(
    alloc: Global,
    p: &Params,
    standing: &StandingPlain,
    leaves: &Leaves,
    wants: &mut Runs,
) -> Result<(), AllocError>
    ensures { OnOk result (wants.new
        ≡ wants.old ++ end_wants p.now (standing_of standing.now) leaves.now) }
{
    let next = standing.epoch.other();
    push_writes_anew(alloc, p, standing, leaves, wants)?;
    push_check_writes(p, next, wants)?;
    push_gates(p, standing.epoch, wants)?;
    push_kept(&[Note::Sync], wants)?;
    push_sets(Register::Epoch, next, standing.epoch_gate, wants)
}
