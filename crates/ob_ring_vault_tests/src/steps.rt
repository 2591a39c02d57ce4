//! Calls on a ring vault as data, and how they were answered.

use ob_base::{Fault, Key, Params, Value, Write};
use ob_plain_serial::{Reply, Request};
use std::alloc::Global;
use std::process::Abort;

/// A key and the value that it gets.
pub struct Put {
    pub key: Key,
    pub text: &'static [u8],
}

/// A batch whose first place asks for a key, or for none, or the end of an epoch with these puts.
#[derive(Clone, Copy)]
pub enum Step {
    Ask(Option<Key>),
    End(&'static [Put]),
}

fn request_of(rt: &impl Abort, alloc: Global, p: &Params, step: &Step) -> Request {
    match step {
        Step::Ask(key) => {
            let mut asks = vec![in alloc; None; p.places as usize].expect(rt, "memory");
            asks[0] = *key;
            Request::Fetch(asks)
        }
        Step::End(puts) => {
            let mut writes = Vec::new(alloc);
            for put in *puts {
                let value = Value::new(put.text);
                writes
                    .push(Write {
                        key: put.key,
                        value,
                    })
                    .expect(rt, "memory");
            }
            Request::End(writes)
        }
    }
}

/// These calls.
pub fn requests_of(rt: &impl Abort, alloc: Global, p: &Params, steps: &[Step]) -> Vec<Request> {
    let mut requests = Vec::new(alloc);
    for step in steps {
        requests
            .push(request_of(rt, alloc, p, step))
            .expect(rt, "memory");
    }
    requests
}

/// Which fault the last of some answers refused its call with, before anything was changed or
/// perhaps behind that, and the last value that a first place had.
#[derive(Clone, Copy)]
pub struct Told {
    pub refused: Option<Fault>,
    pub doubt: Option<Fault>,
    pub found: Option<Value>,
}

/// What these answers tell.
pub fn told_by(replies: &[Reply]) -> Told {
    let mut told = Told {
        refused: None,
        doubt: None,
        found: None,
    };
    for reply in replies {
        match reply {
            Reply::Values(values) => {
                if let Some(Some(value)) = values.first() {
                    told.found = Some(*value);
                }
            }
            Reply::Ended => {}
            Reply::Refused(fault) => told.refused = Some(*fault),
            Reply::Doubt(fault) => told.doubt = Some(*fault),
        }
    }
    told
}
