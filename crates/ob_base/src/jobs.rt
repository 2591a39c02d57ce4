//! The jobs of a plan, with room made once.

ghost use Rattle.std.specs.Prelude.{◌≡◌, ◌++◌, ◌∷◌, [], ◌<◌, ◌≤◌, length, IfOk, Some};
ghost use Rattle.ob_base.specs.Planned.{most_jobs, with_result};

use crate::fault::Memory;
use crate::job::{Job, Place};
use crate::params::Params;
use std::alloc::Global;
use std::marker::Model;

/// The jobs of a plan in the order planned and, for a read batch, its places. Contracts see both
/// lists, and how many there is room for.
#[derive(Drop)]
pub struct Jobs {
    jobs: Vec<Job>,
    places: Vec<Place>,
    room: usize,
    place_room: usize,
}

impl Model for Jobs {
    ghost use Rattle.std.specs.Prelude.{◌≤◌, vec_capacity};
    ghost use Rattle.ob_base.specs.Planned.{Planned};

    ghost Value = { Planned };

    ghost view = { λ s. record { jobs = s.jobs.items; places = s.places.items; room = s.room; place_room = s.place_room } };

    ghost invariant = { λ s. (s.room ≤ vec_capacity s.jobs) × (s.place_room ≤ vec_capacity s.places) };
}

impl Jobs {
    /// No jobs, with room for those of any plan of these parameters.
    ///
    /// # Errors
    /// Memory was wanting.
    pub fn new(alloc: Global, p: &Params) -> Result<Jobs, Memory>
        ensures { IfOk result (λ s. s
            ≡ record {
              jobs = [];
              places = [];
              room = most_jobs p.now;
              place_room =
                  p.now.places;
            }) }
    {
        let shown = p.places * (p.real + 1);
        let lifted = p.evictions * p.real;
        let room = ((p.levels + 1) * shown.max(lifted)) as usize;
        let place_room = p.places as usize;
        Ok(Jobs {
            jobs: Vec::with_capacity(alloc, room)?,
            places: Vec::with_capacity(alloc, place_room)?,
            room,
            place_room,
        })
    }

    /// The jobs, in the order planned.
    pub fn jobs(&self) -> &[Job]
        ensures { result.now ≡ self.now.jobs }
    {
        self.jobs.as_slice()
    }

    /// The places of the batch.
    pub fn places(&self) -> &[Place]
        ensures { result.now ≡ self.now.places }
    {
        self.places.as_slice()
    }

    /// How many jobs there is room for.
    pub fn room(&self) -> usize
        ensures { result ≡ self.now.room }
    {
        self.room
    }

    /// Takes out all jobs and places.
    pub fn clear(&mut self)
        ensures { self.new ≡ record self.old { jobs = []; places = [] } }
    {
        self.jobs.clear();
        self.places.clear();
    }

    /// Puts a job behind the others.
    pub fn push(&mut self, job: Job)
        requires { length self.old.jobs < self.old.room }
        ensures { self.new ≡ record self.old { jobs = self.old.jobs ++ job ∷ [] } }
    {
        let _ = self.jobs.push(job);
    }

    /// Puts a place behind the others.
    pub fn push_place(&mut self, place: Place)
        requires { length self.old.places < self.old.place_room }
        ensures { self.new ≡ record self.old { places = self.old.places ++ place ∷ [] } }
    {
        let _ = self.places.push(place);
    }

    /// Keeps the plain bytes that a job read.
    pub fn set_result(&mut self, i: usize, plain: [u8; 96])
        requires { i < length self.old.jobs }
        ensures { self.new ≡ record self.old { jobs = with_result self.old.jobs i plain } }
    {
        self.jobs[i].result = Some(plain);
    }
}
