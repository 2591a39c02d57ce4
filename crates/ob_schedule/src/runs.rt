//! Wants in a queue.

ghost use Rattle.std.specs.Prelude.{◌≡◌, ◌≤◌, ◌+◌, ◌^◌, ◌∷◌, ◌++◌, [], drop, OnOk, MatchOption, MatchBool};
ghost use Rattle.std.specs.List.{range_with_len};
ghost use Rattle.ob_schedule.specs.Schedule.{reads_of, writes_of};
ghost use Rattle.ob_schedule.specs.Wants.{kept};
ghost use Rattle.ob_schedule.specs.Runs.{run_wants};

use crate::run::Run;
use crate::want::Want;
use std::alloc::{AllocError, Global};
use std::collections::VecDeque;
use std::marker::Model;

/// Wants in a queue. Reads or writes of cells that follow each other take one place in it, as far
/// as they are put there at once. Contracts see the list of the wants.
#[derive(Drop)]
pub struct Runs {
    list: VecDeque<Run>,
}

impl Model for Runs {
    ghost use Rattle.std.specs.Prelude.{List};
    ghost use Rattle.std.specs.List.{flat_map};
    ghost use Rattle.ob_schedule.specs.declared.want.Want.{Want};
    ghost use Rattle.ob_schedule.specs.Runs.{run_wants};

    ghost Value = { List Want };

    ghost view = { λ q. flat_map run_wants q.list.items };
}

impl Runs {
    /// No wants.
    pub fn new(alloc: Global) -> Runs
        ensures { result ≡ [] }
    {
        Runs {
            list: VecDeque::new(alloc),
        }
    }

    /// The first of the wants.
    pub fn first(&self) -> Option<Want>
        ensures { MatchOption result (self.now ≡ []) (λ want. self.now ≡ want ∷ drop 1 self.now) }
    {
        match self.list.front() {
            Some(run) => Some(run.first()),
            None => None,
        }
    }

    /// Whether there are none.
    pub fn is_empty(&self) -> bool
        ensures { MatchBool result (self.now ≡ []) (self.now ≡ [] → ⊥) }
    {
        self.first().is_none()
    }

    /// Takes the first want away.
    pub fn pop(&mut self)
        ensures { self.new ≡ drop 1 self.old }
    {
        let Some(first) = self.list.front() else {
            return;
        };
        match first.rest() {
            Some(rest) => self.list[0] = rest,
            None => {
                let _ = self.list.pop_front();
            }
        }
    }

    /// Takes all away.
    pub fn clear(&mut self)
        ensures { self.new ≡ [] }
    {
        self.list.clear();
    }

    fn push_run(&mut self, run: Run) -> Result<(), AllocError>
        ensures { OnOk result (self.new ≡ self.old ++ run_wants run) }
    {
        self.list.push_back(run)?;
        Ok(())
    }

    /// Puts a want behind the others.
    pub fn push(&mut self, want: Want) -> Result<(), AllocError>
        ensures { OnOk result (self.new ≡ self.old ++ want ∷ []) }
    {
        self.push_run(Run::One(want))
    }

    /// Puts these behind the others.
    pub fn push_all(&mut self, wants: &[Want]) -> Result<(), AllocError>
        ensures { OnOk result (self.new ≡ self.old ++ wants.now) }
    {
        for want in wants {
            self.push(*want)?;
        }
        Ok(())
    }

    /// Puts reads of so many cells behind the others, which change nothing.
    pub fn push_reads(&mut self, first: u64, many: u64) -> Result<(), AllocError>
        requires { first + many ≤ 2 ^ 63 }
        ensures { OnOk result (self.new ≡ self.old ++ kept (reads_of (range_with_len first many))) }
    {
        if many == 0 {
            return Ok(());
        }
        self.push_run(Run::Reads {
            first,
            last: first + (many - 1),
        })
    }

    /// Puts writes of so many cells behind the others, which change nothing.
    pub fn push_writes(&mut self, first: u64, many: u64) -> Result<(), AllocError>
        requires { first + many ≤ 2 ^ 63 }
        ensures { OnOk result (self.new
            ≡ self.old ++ kept (writes_of (range_with_len first many))) }
    {
        if many == 0 {
            return Ok(());
        }
        self.push_run(Run::Writes {
            first,
            last: first + (many - 1),
        })
    }

    /// Puts other wants behind these.
    pub fn append(&mut self, mut more: Runs) -> Result<(), AllocError>
        ensures { OnOk result (self.new ≡ self.old ++ more) }
    {
        self.list.append(&mut more.list)
    }
}
