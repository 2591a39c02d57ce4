//! Room for what the jobs of a batch give, and for the lanes that read them.

ghost use Rattle.std.specs.Prelude.{◌≡◌, ◌≤◌, IfOk};

use ob_base::Memory;
use ob_lanes::Readers;
use std::alloc::Global;
use std::marker::Model;

/// What reads batches of jobs: so many lanes at once, and room for so many jobs. Contracts see both
/// numbers.
#[derive(Drop)]
pub struct Crew<L> {
    pub(crate) readers: Readers<L>,
}

impl<L> Model for Crew<L> {
    ghost use Rattle.ob_lanes.specs.Rooms.{AreReaders, jobs_of, lanes_of};
    ghost use Rattle.ob_cells.specs.Jobs.{Manned};

    ghost Value = { Manned };

    ghost view = { λ s. record { lanes = lanes_of s.readers; jobs = jobs_of s.readers } };

    ghost invariant = { λ s. AreReaders s.readers };
}

impl<L> Crew<L> {
    /// A crew of at most so many lanes, from 1 to 16, with room for so many jobs.
    ///
    /// # Errors
    /// Memory was wanting.
    pub fn new(alloc: Global, lanes: usize, jobs: usize) -> Result<Crew<L>, Memory>
    where
        L: Drop,
        requires { (1 ≤ lanes) × (lanes ≤ 16) }
        ensures { IfOk result (λ s. s ≡ record { lanes = lanes; jobs = jobs }) }
    {
        let readers = Readers::new(alloc, lanes, jobs)?;
        Ok(Crew { readers })
    }

    /// The most lanes.
    pub fn lanes(&self) -> usize
        ensures lanes { result ≡ self.now.lanes }
        ensures some { 1 ≤ result }
        ensures few { result ≤ 16 }
    {
        self.readers.parts.len()
    }

    /// How many jobs there is room for.
    pub fn jobs(&self) -> usize
        ensures { result ≡ self.now.jobs }
    {
        self.readers.slots.len()
    }
}
