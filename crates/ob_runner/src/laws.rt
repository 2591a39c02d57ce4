//! A runner is its script.

ghost use Rattle.ob_runner.specs.Places.{RunnerIsItsScript};

/// A runner is its script: whatever its calls were answered, what it was told of are the first of
/// its client's transactions in the script, in order, each once. Their operations are those that
/// the script asks for, or a front of them where one was aborted. Who asked to commit has all of
/// them, and is to commit; and who was aborted because its client asked for it is to abort, or has
/// an `add` without a sum. Once it has signed off it was told of all, unless it was told that no
/// more transactions begin.
pub fn runner_is_its_script()
    ensures { RunnerIsItsScript }
{}
