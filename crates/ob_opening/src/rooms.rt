//! Room for all that an opened vault works in.

ghost use Rattle.std.specs.Prelude.{◌≡◌, ◌≤◌, IfOk, length};
ghost use Rattle.ob_opening.specs.OpeningParts.{AreRooms};
ghost use Rattle.ob_opening.specs.Openings.{words_room};

use ob_base::{Jobs, Memory, Params, buckets};
use ob_cells::{Bench, Crew};
use ob_check::Sheet;
use ob_ring::Index;
use std::alloc::{AllocError, Global};

// All the room that an opened vault works in.
#[derive(Drop)]
pub struct Rooms<L> {
    pub jobs: Jobs,
    pub crew: Crew<L>,
    pub bench: Bench,
    pub sheet: Sheet,
    pub words: Vec<u64>,
    pub index: Index,
}

// Room for the most words that are drawn at once.
fn words_for(alloc: Global, p: &Params) -> Result<Vec<u64>, AllocError>
    ensures { IfOk result (λ words. length words.items ≡ words_room p.now) }
{
    let all = buckets(p) as usize * (p.real + p.dummies) as usize;
    let few = p.places.max(p.writes) as usize;
    Ok(vec![in alloc; 0; few.max(all)]?)
}

/// The room of an opening.
pub fn rooms_for<L: Drop>(alloc: Global, p: &Params, lanes: usize) -> Result<Rooms<L>, Memory>
    requires lanes { (1 ≤ lanes) × (lanes ≤ 16) }
    ensures { IfOk result (AreRooms p.now lanes) }
{
    let words = match words_for(alloc, p) {
        Ok(words) => words,
        Err(_) => return Err(Memory),
    };
    let sheet = Sheet::new(alloc, p)?;
    let index = Index::new(alloc, p)?;
    let jobs = Jobs::new(alloc, p)?;
    let bench = Bench::new(alloc, lanes)?;
    let crew = Crew::new(alloc, lanes, jobs.room())?;
    Ok(Rooms {
        jobs,
        crew,
        bench,
        sheet,
        words,
        index,
    })
}
