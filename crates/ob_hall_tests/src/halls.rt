//! Halls of the tests: opened for their clients, and closed.

ghost use Rattle.std.specs.Prelude.{◌≡◌, ◌+◌, ◌≤◌, All, length, vec_capacity};
ghost use Rattle.std.specs.List.Sorted.{IsStrictlyIncreasing};
ghost use Rattle.ob_hall_tests.specs.Halls.{AreStarting, AreDone};

use ob_base::Params;
use ob_desk::Desk;
use ob_hall::{Hall, Pass};
use ob_shares::NO_SHARES;
use std::process::Abort;

/// A hall of 64 keys for these clients, with room for 32 written keys an epoch. The driver's pass
/// is the first one.
pub fn opened<R: AllocGlobal + Abort>(rt: &R, clients: &[u32]) -> (Hall, Vec<Pass>)
    requires named { All (λ c. (1 ≤ c) × (c ≤ 64)) clients.now }
    requires rising { IsStrictlyIncreasing clients.now }
    ensures starting { AreStarting result.0 0 result.1.items }
    ensures as_many { length result.1.items ≡ length clients.now + 1 }
    ensures room { length clients.now + 1 ≤ vec_capacity result.1 }
{
    let Ok(params) = Params::new(64, 5, 4, 3, 2, 4, 32, 2, 30) else {
        unreachable!()
    };
    let Ok(desk) = Desk::new(rt.alloc(), &params, 1, 1, clients, NO_SHARES) else {
        panic!(rt; "no memory")
    };
    let Ok((hall, passes)) = Hall::new(rt.alloc(), desk, clients) else {
        panic!(rt; "no memory")
    };
    assert!(rt; passes.capacity() > clients.len());
    (hall, passes)
}

/// Closes a hall at which the driver left no epoch closed: how many transactions there were.
pub fn closed(hall: Hall, passes: Vec<Pass>) -> u64
    requires { AreDone hall 0 passes.items }
{
    hall.close(passes).look().txns
}
