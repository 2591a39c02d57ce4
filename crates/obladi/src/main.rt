//! The program: its words, its keys, store, mirror and trace, standard input and standard output go
//! to the top call.
#![tactic(auto)]

use ob_base::Fault;
use ob_desk::Eager;
use ob_io::Sink;
use ob_mirrored::{Room, obladi_mirrored};
use ob_outside::{Files, Named, StdSink, StdSource, hold_standard, open_named, words_of};
use ob_seal::ChaChaTape;
use ob_top::finish;
use ob_words::tape_key;
use std::alloc::AllocGlobal;
use std::io;
use std::process::ExitCode;
use std::sync::Wait;
use std::thread::Threads;

// Does what the words ask for, and gives the status. A run goes on as long as its clients do, so it
// takes the runtime as one that may start threads and wait too.
fn run<R: AllocGlobal + Threads + Wait + Sync, O: Sink>(
    rt: &HostRuntime,
    waits: &R,
    output: &mut O,
) -> Result<u8, Fault> {
    let words = words_of(rt)?;
    let Named {
        words: texts,
        files,
        keys,
    } = open_named(rt, &words)?;
    // The key file stays locked as long as this is there.
    let Files {
        keys: _locked,
        mut store,
        mut mirror,
        mut trace,
    } = files;
    let mut tape = ChaChaTape::new(&tape_key(keys.as_deref()));
    let mut input = StdSource::new(rt.reader());
    Ok(obladi_mirrored(
        waits,
        &texts,
        keys.as_deref(),
        store.as_mut(),
        &mut mirror,
        Room::new(),
        &mut tape,
        &mut input,
        output,
        &mut trace,
        &mut Eager,
    ))
}

fn main(rt: HostRuntime) -> ExitCode {
    let standard = hold_standard(&rt);
    let mut output = StdSink::new(io::writer(&rt));
    let ended = match &standard {
        Ok(_) => run(&rt, &rt, &mut output),
        Err(fault) => Err(*fault),
    };
    let status = match ended {
        Ok(status) => status,
        Err(fault) => finish(&mut output, Err(fault)),
    };
    ExitCode::from(status)
}
