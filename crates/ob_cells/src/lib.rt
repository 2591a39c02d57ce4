//! Sealed cells. Runs: plain bytes of 96 a cell, under seals of one generation in a row, which read
//! back as they were written, or the first cell that breaks a rule is told. Batches of planned
//! jobs, each of which reads a sealed cell.
#![tactic(auto)]

mod bytes;
mod cell_run;
mod crew;
mod error;
mod job_outcomes;
mod job_run;
mod long;
mod numbers;
mod opening;
mod pieces;
mod raw;
mod reading;
mod ready;
mod run;
mod sealing;
mod window;
mod writing;

pub use bytes::put;
pub use cell_run::CellRun;
pub use crew::Crew;
pub use error::JobsErr;
pub use job_run::run_jobs;
pub use long::write_long;
pub use numbers::{bad_epoch, bad_number};
pub use opening::open_sealed;
pub use pieces::{Cut, Pieces};
pub use raw::read_cells;
pub use reading::{read_next, read_sealed};
pub use ready::write_ready;
pub use run::{Identity, reads_back};
pub use window::{Bench, Row, threads_for};
pub use writing::write_sealed;
