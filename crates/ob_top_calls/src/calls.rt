//! Calls, each from what is asked for to what it answers.

ghost use Rattle.std.specs.Prelude.{◌≡◌};
ghost use Rattle.ob_mem.specs.Memory.{disk_of_store};

use ob_base::Memory;
use ob_desk::{Beat, Eager};
use ob_io::Sink;
use ob_lanes::Lanes;
use ob_mem::{MemSink, MemSource, MemStore};
use ob_seal::ListTape;
use ob_top::obladi;
use std::alloc::Global;
use std::sync::Wait;
use std::thread::Threads;

/// The keys of the bytes 0 to 95.
pub const KEYS: &str = "\
    000102030405060708090a0b0c0d0e0f101112131415161718191a1b1c1d1e1f\
    202122232425262728292a2b2c2d2e2f303132333435363738393a3b3c3d3e3f\
    404142434445464748494a4b4c4d4e4f505152535455565758595a5b5c5d5e5f";

/// Room for each output and each trace of a store of 8 keys.
pub const WIDE: usize = 2000;

/// No call comes to this number.
pub const NEVER: u64 = u64::MAX;

/// What is asked for: the words; the keys; the script, or the trace that is to be audited, in which a
/// `/` stands for the end of a line; the tape, behind which are zeros; which of the input's reads and
/// of the output's writes fails; the output's room, and the trace's, where there is one.
#[derive(Clone, Copy)]
pub struct Ask<'a> {
    pub words: &'a str,
    pub keys: Option<&'a str>,
    pub script: &'a str,
    pub tape: &'a [u64],
    pub bad_read: u64,
    pub bad_write: u64,
    pub room: usize,
    pub trace: Option<usize>,
}

/// These words and this script under the keys, with a tape of zeros, wide room and no trace.
pub fn ask_for<'a>(words: &'a str, script: &'a str) -> Ask<'a> {
    Ask {
        words,
        keys: Some(KEYS),
        script,
        tape: &[],
        bad_read: NEVER,
        bad_write: NEVER,
        room: WIDE,
        trace: None,
    }
}

/// What a call answers: its status, the output and the trace.
#[derive(Drop)]
pub struct Answer {
    pub status: u8,
    pub output: MemSink,
    pub trace: Option<MemSink>,
}

impl Answer {
    /// Whether this was the status, and just these lines were told; a `/` stands for the end of each.
    /// It lets the answer go, whose drop is proved here alone.
    pub fn was(self, status: u64, told: &str) -> bool {
        u64::from(self.status) == status && has(&self.output, told)
    }
}

/// A text with its line ends, for each of which a `/` stands.
///
/// # Errors
/// Memory was wanting.
pub fn lines_of(alloc: Global, text: &str) -> Result<String, Memory> {
    Ok(text.replace(alloc, "/", "\n")?)
}

/// Whether a sink has just so many bytes of these lines, or all where they are no more; a `/` stands
/// for the end of each line.
pub fn has_front(sink: &MemSink, lines: &str, room: usize) -> bool {
    for (one, other) in sink.written().iter().zip(lines.as_bytes()) {
        let byte = if *other == b'/' { b'\n' } else { *other };
        if *one != byte {
            return false;
        }
    }
    sink.written().len() == room.min(lines.len())
}

/// Whether a sink has just these lines.
pub fn has(sink: &MemSink, lines: &str) -> bool {
    has_front(sink, lines, lines.len())
}

/// The words of a line.
///
/// # Errors
/// Memory was wanting.
pub fn words_of<'a>(alloc: Global, line: &'a str) -> Result<Vec<&'a str>, Memory> {
    let mut words = Vec::new(alloc);
    for word in line.split(' ') {
        words.push(word)?;
    }
    Ok(words)
}

/// The script as the input, of which a read may fail.
///
/// # Errors
/// Memory was wanting.
pub fn source_of(alloc: Global, script: &str, bad: u64) -> Result<MemSource, Memory> {
    let bad = [bad].to_vec(alloc)?;
    let bytes = lines_of(alloc, script)?.as_bytes().to_vec(alloc)?;
    Ok(MemSource::new(bytes, bad))
}

/// A sink with so much room, of which a write may fail.
///
/// # Errors
/// Memory was wanting.
pub fn sink_of(alloc: Global, room: usize, bad: u64) -> Result<MemSink, Memory> {
    MemSink::new(alloc, room, [bad].to_vec(alloc)?)
}

// An answer to what is asked for, of which nothing is told yet.
fn answer_to(alloc: Global, ask: &Ask<'_>) -> Result<Answer, Memory> {
    let trace = match ask.trace {
        Some(room) => Some(sink_of(alloc, room, NEVER)?),
        None => None,
    };
    let output = sink_of(alloc, ask.room, ask.bad_write)?;
    Ok(Answer {
        status: 0,
        output,
        trace,
    })
}

/// Makes a call over a store, with a tape of its own and with this output, trace and beat: its status.
///
/// # Errors
/// Memory was wanting, and no call was made.
pub fn call_by<R: AllocGlobal + Threads + Wait + Sync, S: Lanes, B: Beat, W: Sink>(
    rt: &R,
    store: &mut S,
    ask: &Ask<'_>,
    output: &mut MemSink,
    trace: &mut Option<W>,
    beat: &mut B,
) -> Result<u8, Memory>
    requires { (S.disk store.old).out ≡ 0 }
    ensures { (S.disk store.new).out ≡ 0 }
{
    let words = words_of(rt.alloc(), ask.words)?;
    let mut input = source_of(rt.alloc(), ask.script, ask.bad_read)?;
    let mut tape = ListTape::new(rt.alloc(), ask.tape)?;
    Ok(obladi(
        rt,
        &words,
        ask.keys.map(str::as_bytes),
        Some(store),
        &mut tape,
        &mut input,
        output,
        trace,
        beat,
    ))
}

/// Makes a call over a store.
///
/// # Errors
/// Memory was wanting, and no call was made.
pub fn call_over<R: AllocGlobal + Threads + Wait + Sync, S: Lanes>(
    rt: &R,
    store: &mut S,
    ask: &Ask<'_>,
) -> Result<Answer, Memory>
    requires { (S.disk store.old).out ≡ 0 }
    ensures { (S.disk store.new).out ≡ 0 }
{
    let mut answer = answer_to(rt.alloc(), ask)?;
    answer.status = call_by(
        rt,
        store,
        ask,
        &mut answer.output,
        &mut answer.trace,
        &mut Eager,
    )?;
    Ok(answer)
}

/// Makes a call over a store in memory.
///
/// # Errors
/// Memory was wanting, and no call was made.
pub fn call<R: AllocGlobal + Threads + Wait + Sync>(
    rt: &R,
    store: &mut MemStore,
    ask: &Ask<'_>,
) -> Result<Answer, Memory>
    requires { (disk_of_store store.old).out ≡ 0 }
    ensures { (disk_of_store store.new).out ≡ 0 }
{
    call_over(rt, store, ask)
}

/// Makes a call without a store.
///
/// # Errors
/// Memory was wanting, and no call was made.
pub fn call_alone<R: AllocGlobal + Threads + Wait + Sync>(
    rt: &R,
    ask: &Ask<'_>,
) -> Result<Answer, Memory> {
    let mut answer = answer_to(rt.alloc(), ask)?;
    let words = words_of(rt.alloc(), ask.words)?;
    let mut input = source_of(rt.alloc(), ask.script, ask.bad_read)?;
    let mut tape = ListTape::new(rt.alloc(), ask.tape)?;
    let none: Option<&mut MemStore> = None;
    answer.status = obladi(
        rt,
        &words,
        ask.keys.map(str::as_bytes),
        none,
        &mut tape,
        &mut input,
        &mut answer.output,
        &mut answer.trace,
        &mut Eager,
    );
    Ok(answer)
}
