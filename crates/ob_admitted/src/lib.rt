//! Lives of a ring store and public histories. Laws of definitions; nothing here runs.
#![tactic(auto)]

mod fills;

pub use fills::{
    calls_are_turns, calls_go_by_fills, calls_leave_as_noted, calls_leave_gates,
    cut_openings_are_shown, cut_openings_show_histories, cut_runs_show_histories, fronts_are_runs,
    gated_runs_are_admitted, lives_are_admitted, lives_go_by_fills, lives_have_fills,
    noted_runs_are_admitted, noted_stages_are_admitted, openings_are_runs, openings_go_by_fills,
    openings_leave_histories, parts_are_runs, refused_openings_are_shown, repeats_leave_histories,
    rows_are_admitted, rows_of_runs_are_admitted, runs_leave_histories, runs_show_histories,
    served_runs_are_shown, stages_leave_as_noted, stopped_runs_are_admitted,
    stopped_stages_are_admitted,
};
