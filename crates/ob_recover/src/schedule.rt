//! What the calls of a ring store show is the public schedule, made of what the store may know.
//! Laws of definitions; nothing here runs.

ghost use Rattle.ob_recover.specs.Batches.{BatchesAreScheduled, BatchesAreTold};
ghost use Rattle.ob_recover.specs.Ends.{EndsAreScheduled, EndsAreTold, LiftsComeFirst};
ghost use Rattle.ob_recover.specs.Known.{FillsGoOn, FormatIsPublic};
ghost use Rattle.ob_recover.specs.Fronts.{CutsOfFronts};
ghost use Rattle.ob_recover.specs.Lives.{LivesShowFills};
ghost use Rattle.ob_recover.specs.ShownOpenings.{OpeningsAreCut, OpeningsAreScheduled, OpeningsAreTold, OpeningsBegin};
ghost use Rattle.ob_recover.specs.Samples.{Sampled};
ghost use Rattle.ob_recover.specs.Telling.{OneLaneAsPlanned, OneLaneInOrder, PhasesJoin};

/// What the store knows of a new store is the schedule's public state of one.
pub fn format_is_public()
    ensures { FormatIsPublic }
{}

/// The fills of more records fill the holes of the first ones alike.
pub fn fills_go_on()
    ensures { FillsGoOn }
{}

/// An opening's calls show the schedule's opening, and leave its public state.
pub fn openings_are_scheduled()
    ensures { OpeningsAreScheduled }
{}

/// What a refused opening has shown is a front of an opening.
pub fn openings_begin()
    ensures { OpeningsBegin }
{}

/// The first steps of a whole that were cut short are the whole, cut short.
pub fn cuts_of_fronts()
    ensures { CutsOfFronts }
{}

/// What is told of an opening is the schedule's, each of its repeats dealt to lanes.
pub fn openings_are_told()
    ensures { OpeningsAreTold }
{}

/// What is told of an opening that repeated the first batches is a front of the schedule's.
pub fn openings_are_cut()
    ensures { OpeningsAreCut }
{}

/// One lane makes its reads in order.
pub fn one_lane_in_order()
    ensures { OneLaneInOrder }
{}

/// One lane makes phases as they were planned.
pub fn one_lane_as_planned()
    ensures { OneLaneAsPlanned }
{}

/// Phases that are made in turn are made; a phase of reads is, just where lanes read its cells.
pub fn phases_join()
    ensures { PhasesJoin }
{}

/// A read batch's calls show the schedule's batch, and leave its public state.
pub fn batches_are_scheduled()
    ensures { BatchesAreScheduled }
{}

/// What is told of a read batch is the schedule's, its reads dealt to lanes.
pub fn batches_are_told()
    ensures { BatchesAreTold }
{}

/// An end's calls show the schedule's end, and leave its public state.
pub fn ends_are_scheduled()
    ensures { EndsAreScheduled }
{}

/// What is told of an end is the schedule's, its lifts dealt to lanes.
pub fn ends_are_told()
    ensures { EndsAreTold }
{}

/// An end that was refused behind its lifts has shown the first of its notes.
pub fn lifts_come_first()
    ensures { LiftsComeFirst }
{}

/// What fills the holes of the schedule is what a life of the store shows there.
pub fn lives_show_fills()
    ensures { LivesShowFills }
{}

/// What is shown of a small store, computed from the definitions.
pub fn sampled()
    ensures { Sampled }
{}
