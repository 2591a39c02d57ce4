//! Runners of scripts, driven in turns.

ghost use Rattle.std.specs.Prelude.{◌≡◌, ◌≤◌};
ghost use Rattle.ob_session.specs.Clients.{stands_after};
ghost use Rattle.ob_session.specs.declared.runner.Step.TheVariants as steps;
ghost use Rattle.ob_hall.specs.Passes.{opening_of, said_of, IsBehind};
ghost use Rattle.ob_hall.specs.Calling.{IsReady, TellsCalls};
ghost use Rattle.ob_hall.specs.Driving.{TurnSays, DriveSays, MakesStep, MakesSteps};

use crate::hall::{Hall, Pass};
use ob_session::{Runner, Step};
use std::sync::Wait;

/// One step of a runner, in one turn of its client's pass. The turn stands behind so many as the
/// caller was told of in `turns`, by this pass or another one; behind it `turns` says how many
/// there are up to it.
pub fn take_turn<R: Wait, U: Runner>(
    rt: &R,
    hall: &Hall,
    pass: &mut Pass,
    runner: &mut U,
    turns: &mut u64,
) -> Step
    requires ready { IsReady hall.now pass.old }
    requires client { U.client runner.old ≡ pass.old.client }
    requires bound { U.bound runner.old ≤ (opening_of hall.now).setup.params.keys }
    requires fits { U.fits runner.old (said_of pass.old) }
    ensures one_history { TellsCalls hall.now pass.old pass.new
        (TurnSays pass.old.client (said_of pass.old)) }
    ensures turn { MakesStep (U.turn (U.plan runner.old)) pass.old pass.new }
    ensures fits { U.fits runner.new (said_of pass.new) }
    ensures step { result ≡ stands_after (said_of pass.new) }
    ensures client { U.client runner.new ≡ U.client runner.old }
    ensures bound { U.bound runner.new ≡ U.bound runner.old }
    ensures plan { U.plan runner.new ≡ U.plan runner.old }
    ensures ready { IsReady hall.now pass.new }
    ensures behind { IsBehind turns.old pass.new turns.new }
{
    let (mut desk, count) = hall.enter_behind(rt, pass, *turns);
    let (step, made) = runner.step(&mut desk);
    hall.leave_client(pass, desk, made);
    *turns = count;
    step
}

/// Steps of a runner, in turns of its client's pass, until it has signed off. Where its last call
/// can't be answered yet it sleeps in between.
pub fn drive<R: Wait, U: Runner>(rt: &R, hall: &Hall, pass: &mut Pass, runner: &mut U)
    requires ready { IsReady hall.now pass.old }
    requires client { U.client runner.old ≡ pass.old.client }
    requires bound { U.bound runner.old ≤ (opening_of hall.now).setup.params.keys }
    requires fits { U.fits runner.old (said_of pass.old) }
    ensures one_history { TellsCalls hall.now pass.old pass.new (DriveSays pass.old.client) }
    ensures turns { MakesSteps (U.turn (U.plan runner.old)) pass.old pass.new }
    ensures fits { U.fits runner.new (said_of pass.new) }
    ensures signed_off { stands_after (said_of pass.new) ≡ steps.Done }
    ensures client { U.client runner.new ≡ U.client runner.old }
    ensures bound { U.bound runner.new ≡ U.bound runner.old }
    ensures plan { U.plan runner.new ≡ U.plan runner.old }
    ensures ready { IsReady hall.now pass.new }
{
    let mut turns = 0;
    for _ in rt.forever() {
        let seen = hall.news();
        match take_turn(rt, hall, pass, runner, &mut turns) {
            Step::Done => {
                hall.ask_driver();
                return;
            }
            Step::Waits => hall.nap(rt, seen),
            Step::Ran => {}
        }
    }
    unreachable!()
}
