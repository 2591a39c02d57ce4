//! What jobs show that were read.

ghost use Rattle.std.specs.Prelude.{◌≡◌, ◌<◌, ◌≤◌, length, map};
ghost use Rattle.ob_store.specs.declared.watch.Note.TheVariants as note;
ghost use Rattle.ob_store.specs.Lines.{Shows};
ghost use Rattle.ob_recover.specs.Shows.{ArePlaced, placed_notes, shown_place_at, place_end, notes_of_place};

use ob_base::{Job, Jobs, Place};
use ob_store::{Note, Watch};

/// Shows a read of each of these jobs' cells.
pub fn show_reads<W: Watch>(jobs: &[Job], watch: &mut W)
    ensures { Shows (map (λ j. note.Read j.cell) jobs.now) (W.trace watch.old) (W.trace watch.new) }
{
    for i in 0..jobs.len() {
        watch.note(Note::Read(jobs[i].cell));
    }
}

// A place of the batch.
fn place_of(jobs: &Jobs, i: usize) -> Place
    requires { i < length jobs.now.places }
    ensures { result ≡ shown_place_at jobs.now i }
{
    jobs.places()[i]
}

// The number of the job behind those of a place.
fn end_of(jobs: &Jobs, i: usize) -> usize
    requires { i < length jobs.now.places }
    ensures { result ≡ place_end jobs.now i }
{
    match jobs.places().get(i + 1) {
        Some(next) => next.first as usize,
        None => jobs.jobs().len(),
    }
}

// Shows the label of a place and the reads of its jobs.
fn show_place<W: Watch>(jobs: &Jobs, i: usize, watch: &mut W)
    requires place { i < length jobs.now.places }
    requires placed { ArePlaced jobs.now }
    ensures { Shows (notes_of_place jobs.now i) (W.trace watch.old) (W.trace watch.new) }
{
    let place = place_of(jobs, i);
    let end = end_of(jobs, i);
    watch.note(Note::Label(place.leaf as u64));
    show_reads(&jobs.jobs()[place.first as usize..end], watch);
}

// How many jobs stand before the first place.
fn front_of(jobs: &Jobs) -> usize
    ensures { result ≡ (shown_place_at jobs.now 0).first }
{
    match jobs.places().get(0) {
        Some(place) => place.first as usize,
        None => jobs.jobs().len(),
    }
}

// Shows the reads of the jobs before the first place.
fn show_front<W: Watch>(jobs: &Jobs, watch: &mut W)
    requires placed { ArePlaced jobs.now }
    ensures { Shows (placed_notes jobs.now 0) (W.trace watch.old) (W.trace watch.new) }
{
    let front = front_of(jobs);
    show_reads(&jobs.jobs()[..front], watch);
}

/// Shows jobs that were read: those before the first place, and before each place's reads its
/// label.
pub fn show_jobs<W: Watch>(jobs: &Jobs, watch: &mut W)
    requires placed { ArePlaced jobs.now }
    ensures { Shows (placed_notes jobs.now (length jobs.now.places)) (W.trace watch.old)
        (W.trace watch.new) }
{
    show_front(jobs, watch);
    for i in 0..jobs.places().len() {
        show_place(jobs, i, watch);
    }
}
