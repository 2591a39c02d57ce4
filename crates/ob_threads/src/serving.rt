//! A client's steps, until its sign-off.

ghost use Rattle.std.specs.Prelude.{◌≡◌, MatchBool};
ghost use Rattle.ob_threads.specs.Served.{words, IsClient, StepsToSignOff};

use ob_hall::{Hall, Pass, drive};
use ob_session::Runner;
use std::sync::Wait;
use std::sync::atomic::AtomicBool;
use std::sync::atomic::Ordering::SeqCst;

/// A client's pass, and the runner that makes its calls.
pub type Client<U> = (Pass, U);

/// Makes a client's steps until its sign-off, each in a turn of its pass.
pub fn serve<R: Wait, U: Runner>(rt: &R, hall: &Hall, client: Client<U>) -> Client<U>
    requires client { IsClient (words U.client U.bound U.plan U.fits U.turn) hall.now client }
    ensures served { StepsToSignOff (words U.client U.bound U.plan U.fits U.turn) hall.now client
        result }
{
    let (mut pass, mut runner) = client;
    drive(rt, hall, &mut pass, &mut runner);
    (pass, runner)
}

/// What a client's thread does: it serves the client, and gives it back with true. But with its
/// flag set it gives the client back as it came, with false.
pub fn run_unless<R: Wait, U: Runner>(
    rt: &R,
    hall: &Hall,
    by_hand: &AtomicBool,
    client: Client<U>,
) -> (Client<U>, bool)
    requires client { IsClient (words U.client U.bound U.plan U.fits U.turn) hall.now client }
    ensures back { MatchBool result.1
        (StepsToSignOff (words U.client U.bound U.plan U.fits U.turn) hall.now client result.0)
        (result.0 ≡ client) }
{
    if by_hand.load(SeqCst) {
        return (client, false);
    }
    (serve(rt, hall, client), true)
}
