//! On whom a work falls.

use ob_base::{Key, Op};
use ob_order::{Work, add_to, end_in, fell_on};
use std::alloc::Global;

fn read_from(source: u64) -> Op<Key> {
    Op::Get {
        key: 5,
        reply: None,
        source,
    }
}

// Each of these tickets reads key 5 from its source, or ends: whether all could.
fn go_on(works: &mut Vec<Work>, rows: &[(usize, Option<u64>)]) -> bool {
    for (t, source) in rows {
        if *t == 0 || works.len() < *t {
            return false;
        }
        match *source {
            Some(source) if add_to(works, *t, read_from(source)).is_err() => return false,
            Some(_) => {}
            None => end_in(works, *t),
        }
    }
    true
}

// A ticket, and what it has read from, or that it ends.
const READ_AND_ENDED: &[(usize, Option<u64>)] = &[(3, Some(2)), (3, Some(1)), (2, None), (1, None)];

// On whom the third of three works falls behind these.
fn third_fell_on(alloc: Global) -> Option<u64> {
    let Ok(mut works) = Vec::with_capacity(alloc, 3) else {
        return None;
    };
    works.push_reserved(Work::new(alloc));
    works.push_reserved(Work::new(alloc));
    works.push_reserved(Work::new(alloc));
    if !go_on(&mut works, READ_AND_ENDED) || works.len() != 3 {
        return None;
    }
    fell_on(&works, 2)
}

#[test]
fn a_work_falls_on_its_least_source(rt: HostRuntime) {
    assert!(rt; third_fell_on(rt.alloc()) == Some(1));
}
