//! A mirror of stores that tell no calls.

use crate::batches::reads_all;
use crate::steps::{holds, insist, play};
use ob_mem::BareStore;
use ob_mirror::{Mirror, Places, join};
use ob_store::{Blind, Store};
use std::alloc::Global;
use std::process::Abort;
use std::thread::Threads;

// Fills three cells of zeros of both, behind a join of the fourth.
const FILLED: &str = "R34 W01 W12 W29 w45 S R29 W23 S R01";

fn bare_is_mirrored<R: Abort + Threads + Sync>(rt: &R, alloc: Global) -> bool {
    let mut first = BareStore::new(alloc, 4).expect(rt, "memory");
    let mut second = BareStore::new(alloc, 4).expect(rt, "memory");
    let joined = first.write(3, &[b'4'; 128]).is_ok()
        && join(&mut first, &mut second, 4, &mut Blind).is_ok();
    let mut mirror = Mirror::over(&mut first, &mut second, Places::new());
    play(rt, &mut mirror, FILLED);
    let read = reads_all(rt, alloc, &mut mirror, 1, 4) && reads_all(rt, alloc, &mut mirror, 4, 16);
    let _lent = mirror.into_lent();
    joined && read && holds(&mut first, "1234") && holds(&mut second, "1234")
}

#[test]
fn stores_that_tell_no_calls_serve_as_one(rt: HostRuntime) {
    insist(&rt, bare_is_mirrored(&rt, rt.alloc()), "its calls");
}
