//! The one call that the program makes.

ghost use Rattle.std.specs.Prelude.{◌≡◌, map, ℕ, List, true, false};
ghost use Rattle.ob_io.specs.Streams.{inflow, outflow};
ghost use Rattle.ob_store.specs.Calls.{GoesOn};
ghost use Rattle.ob_top.specs.Outside.{words_given, outside, NoneOut, StoreGoesOn};
ghost use Rattle.ob_top.specs.Endings.{err_of};
ghost use Rattle.ob_words.specs.Work.{Asks};
ghost use Rattle.ob_top.specs.Top.{UsageDoes, AuditDoes, DrillDoes, FormatDoes, RunDoes};
ghost use Rattle.ob_top.specs.Over.{AskForSomething, traced_of, start_for, TracedDoes, WatchedDoes, CommandDoes, IsRefusedWithout, OverStore, WithoutStore};
ghost use Rattle.ob_top.specs.Promised.{KeepsHeadline};
ghost use Rattle.ob_top.specs.Complete.{Completes, AuditCompletes, DrillCompletes};
ghost use Rattle.ob_desk.specs.Beats.{beat_kind};

use crate::audit::audit_on;
use crate::drill::drill_told;
use crate::endings::{finish, finish_run};
use crate::format::format_on;
use crate::run::{Means, run_on};
use ob_base::Fault;
use ob_conduct::RunErr;
use ob_desk::Beat;
use ob_io::{Sink, Source};
use ob_lanes::Lanes;
use ob_seal::{Keys, Tape};
use ob_store::{Blind, SinkWatch, Start, Watch};
use ob_words::{Command, Work, keys_of, work_of};
use std::alloc::Global;
use std::sync::Wait;
use std::thread::Threads;

// Whether a command has a trace.
fn is_traced(command: &Command) -> bool
    ensures { result ≡ traced_of command.now }
{
    match *command {
        Command::Format { traced, .. } => traced,
        Command::Run { traced, .. } => traced,
    }
}

// How the trace of a command begins.
fn start_of(command: &Command) -> Start
    ensures { result ≡ start_for command.now }
{
    match *command {
        Command::Format { params, .. } => Start::Format { params },
        Command::Run { .. } => Start::Run { mirrored: false },
    }
}

// Does this over a store, under a watch that is whole.
fn do_watched<R: Threads + Wait + Sync, S: Lanes, T: Tape, I: Source, O: Sink, B: Beat, W: Watch>(
    rt: &R,
    alloc: Global,
    command: Command,
    keys: &Keys,
    store: &mut S,
    tape: &mut T,
    input: &mut I,
    output: &mut O,
    beat: &mut B,
    watch: &mut W,
) -> Result<(), RunErr>
    requires none_out { (S.disk store.old).out ≡ 0 }
    requires unstarted { T.present tape.old ≡ 0 }
    requires asked { (words : List (List ℕ)) × Asks words command }
    requires whole { (W.trace watch.old).broken ≡ false }
    ensures goes { GoesOn (S.disk store.old) (S.disk store.new) }
    ensures none_out { (S.disk store.new).out ≡ 0 }
    ensures does { WatchedDoes S.disk (beat_kind B.passes B.exact)
        (words_given (T.present tape.new) (T.drawn tape.new)) command keys.now store.old store.new
        (outside (inflow I.Source input.old) (outflow O.Sink output.old))
        (outside (inflow I.Source input.new) (outflow O.Sink output.new)) (W.trace watch.old)
        (W.trace watch.new) (err_of result) }
{
    match command {
        Command::Format { params, .. } => {
            format_on(rt, alloc, store, tape, keys, &params, output, watch)
        }
        Command::Run {
            lanes,
            turns,
            shares,
            ..
        } => {
            let means = Means {
                lanes,
                threads: !turns,
                shares,
            };
            run_on(
                rt, alloc, store, tape, keys, input, output, beat, means, watch,
            )
        }
    }
}

// Does this over a store, under a watch of the trace, whose first line comes first of all.
fn do_traced<R: Threads + Wait + Sync, S: Lanes, T: Tape, I: Source, O: Sink, B: Beat, W: Sink>(
    rt: &R,
    alloc: Global,
    command: Command,
    keys: &Keys,
    store: &mut S,
    tape: &mut T,
    input: &mut I,
    output: &mut O,
    trace: &mut Option<W>,
    beat: &mut B,
) -> Result<(), RunErr>
    requires none_out { (S.disk store.old).out ≡ 0 }
    requires unstarted { T.present tape.old ≡ 0 }
    requires asked { (words : List (List ℕ)) × Asks words command }
    ensures goes { GoesOn (S.disk store.old) (S.disk store.new) }
    ensures none_out { (S.disk store.new).out ≡ 0 }
    ensures does { TracedDoes S.disk (λ w. outflow W.Sink w) (beat_kind B.passes B.exact)
        (words_given (T.present tape.new) (T.drawn tape.new)) command keys.now store.old store.new
        (outside (inflow I.Source input.old) (outflow O.Sink output.old))
        (outside (inflow I.Source input.new) (outflow O.Sink output.new)) trace.old trace.new
        (err_of result) true }
{
    let Some(sink) = trace else {
        return Err(RunErr::Unwatched);
    };
    let mut watch = SinkWatch::new(sink);
    watch.start(&start_of(&command));
    if watch.broken() {
        return Err(RunErr::Unwatched);
    }
    do_watched(
        rt, alloc, command, keys, store, tape, input, output, beat, &mut watch,
    )
}

// Does this over a store.
fn do_on<R: Threads + Wait + Sync, S: Lanes, T: Tape, I: Source, O: Sink, B: Beat, W: Sink>(
    rt: &R,
    alloc: Global,
    command: Command,
    keys: Option<&[u8]>,
    store: &mut S,
    tape: &mut T,
    input: &mut I,
    output: &mut O,
    trace: &mut Option<W>,
    beat: &mut B,
) -> Result<(), RunErr>
    requires none_out { (S.disk store.old).out ≡ 0 }
    requires unstarted { T.present tape.old ≡ 0 }
    requires asked { (words : List (List ℕ)) × Asks words command }
    ensures goes { GoesOn (S.disk store.old) (S.disk store.new) }
    ensures none_out { (S.disk store.new).out ≡ 0 }
    ensures does { (words : List (List ℕ)) → Asks words command
        → CommandDoes S.disk (λ w. outflow W.Sink w) (beat_kind B.passes B.exact)
        (words_given (T.present tape.new) (T.drawn tape.new)) words keys.entry store.old store.new
        (outside (inflow I.Source input.old) (outflow O.Sink output.old))
        (outside (inflow I.Source input.new) (outflow O.Sink output.new)) trace.old trace.new
        (err_of result) }
{
    let keys = match keys_of(keys) {
        Ok(keys) => keys,
        Err(fault) => return Err(RunErr::Fault(fault)),
    };
    match is_traced(&command) {
        true => do_traced(
            rt, alloc, command, &keys, store, tape, input, output, trace, beat,
        ),
        false => do_watched(
            rt, alloc, command, &keys, store, tape, input, output, beat, &mut Blind,
        ),
    }
}

// Does what the words ask for, with a store.
fn do_with<
    R: AllocGlobal + Threads + Wait + Sync,
    S: Lanes,
    T: Tape,
    I: Source,
    O: Sink,
    B: Beat,
    W: Sink,
>(
    rt: &R,
    words: &[&str],
    keys: Option<&[u8]>,
    store: &mut S,
    tape: &mut T,
    input: &mut I,
    output: &mut O,
    trace: &mut Option<W>,
    beat: &mut B,
) -> u8
    requires none_out { (S.disk store.old).out ≡ 0 }
    requires unstarted { T.present tape.old ≡ 0 }
    ensures goes { GoesOn (S.disk store.old) (S.disk store.new) }
    ensures none_out { (S.disk store.new).out ≡ 0 }
    ensures does { OverStore S.disk (λ w. outflow W.Sink w) (beat_kind B.passes B.exact)
        (words_given (T.present tape.new) (T.drawn tape.new)) (map (λ w. w.now) words.entry.now)
        keys.entry store.old store.new
        (outside (inflow I.Source input.old) (outflow O.Sink output.old))
        (outside (inflow I.Source input.new) (outflow O.Sink output.new)) trace.old trace.new
        result }
{
    let work = match work_of(rt.alloc(), words) {
        Ok(work) => work,
        Err(fault) => return finish(output, Err(fault)),
    };
    match work {
        Work::OnStore(command) => {
            let ended = do_on(
                rt,
                rt.alloc(),
                command,
                keys,
                store,
                tape,
                input,
                output,
                trace,
                beat,
            );
            finish_run(output, ended)
        }
        Work::Audit => audit_on(rt.alloc(), input, output),
        Work::Drill { count } => drill_told(rt, count, output),
    }
}

// Why nothing is done over a store without one: what the keys are refused for, or that there is
// none.
fn refusal_of(keys: Option<&[u8]>) -> Fault
    ensures { (words : List (List ℕ)) → AskForSomething words
        → IsRefusedWithout words keys.entry result }
{
    match keys_of(keys) {
        Ok(_) => Fault::StoreFault { unsure: None },
        Err(fault) => fault,
    }
}

// Does what the words ask for, without a store.
fn do_without<R: AllocGlobal + Threads + Wait + Sync, I: Source, O: Sink>(
    rt: &R,
    words: &[&str],
    keys: Option<&[u8]>,
    input: &mut I,
    output: &mut O,
) -> u8
    ensures { WithoutStore (map (λ w. w.now) words.entry.now) keys.entry
        (outside (inflow I.Source input.old) (outflow O.Sink output.old))
        (outside (inflow I.Source input.new) (outflow O.Sink output.new)) result }
{
    let asked = match work_of(rt.alloc(), words) {
        Ok(work) => work,
        Err(fault) => return finish(output, Err(fault)),
    };
    match asked {
        Work::OnStore(_) => finish(output, Err(refusal_of(keys))),
        Work::Audit => audit_on(rt.alloc(), input, output),
        Work::Drill { count } => drill_told(rt, count, output),
    }
}

/// Does what the words ask for, and answers the status of the process.
///
/// `format STORE KEYS N L Z S R BR BW E T [--trace FILE]` makes an empty store and prints how many
/// cells it has. `run STORE KEYS [--lanes K] [--mirror FILE] [--reads Q] [--writes W] [--trace FILE]
/// [--turns]` reads a script, runs its clients' transactions over the store, and reports them, each
/// epoch once it is durable. A batch is read by so many lanes, 4 where no number is given, each in a
/// thread of its own. Each client's calls are made in a thread of its own, or by hand where the
/// system refuses it; with `--turns` all are made by hand, in rounds. `store` is the store that the
/// words name, or a mirror of it, or none where it wasn't opened: whether `--mirror` is given makes
/// no difference here. `keys` is the text of the key file that they name, or none where it wasn't
/// read; `tape` wasn't started, and gives the random words by which rows are spread; `beat` says at
/// which looks the driver of epochs acts. `trace` is the file that `--trace` names, or none where it
/// wasn't opened: all that the store sees is written there, as it sees it. Without the option it is
/// left as it is; with it nothing is done where there is none, and nothing more is begun once it
/// failed.
///
/// `audit` reads a trace, and prints whether each line may stand there, or the first that may not.
/// It touches no store and no keys.
///
/// `drill COUNT` makes so many transactions over a store in memory of its own, reads the map that
/// they left, and prints a summary, which is the same wherever it is made. It touches nothing that
/// is handed in but the output.
///
/// The status is 0 where all was done and written, 1 where a line of a trace may not stand there,
/// and else that of the fault whose line stands behind the report: 2 for words that are no command,
/// for a number or lanes out of range, for keys that are none and for a script that breaks the
/// grammar; 3 for what is no store; 4 for damage; 5 where the store failed or none was handed in; 6
/// where more rows would be left than the stash may keep; 7 where the key file, the input, the
/// output or the trace failed; 8 where a number is worn out; 9 for want of memory.
pub fn obladi<
    R: AllocGlobal + Threads + Wait + Sync,
    S: Lanes,
    T: Tape,
    I: Source,
    O: Sink,
    B: Beat,
    W: Sink,
>(
    rt: &R,
    words: &[&str],
    keys: Option<&[u8]>,
    store: Option<&mut S>,
    tape: &mut T,
    input: &mut I,
    output: &mut O,
    trace: &mut Option<W>,
    beat: &mut B,
) -> u8
    requires none_out { NoneOut S.disk store }
    requires unstarted { T.present tape.old ≡ 0 }
    // A store that was handed in can be handed in again.
    ensures goes { StoreGoesOn S.disk store.entry store.exit }
    // Words that are no command leave everything but the output untouched.
    ensures usage { UsageDoes S.disk (λ w. outflow W.Sink w) (beat_kind B.passes B.exact)
        (map (λ w. w.now) words.entry.now) keys.entry
        store.entry store.exit trace.old trace.new
        (outside (inflow I.Source input.old) (outflow O.Sink output.old))
        (outside (inflow I.Source input.new) (outflow O.Sink output.new)) result }
    ensures audit { AuditDoes S.disk (λ w. outflow W.Sink w) (beat_kind B.passes B.exact)
        (map (λ w. w.now) words.entry.now) keys.entry
        store.entry store.exit trace.old trace.new
        (outside (inflow I.Source input.old) (outflow O.Sink output.old))
        (outside (inflow I.Source input.new) (outflow O.Sink output.new)) result }
    ensures drill { DrillDoes S.disk (λ w. outflow W.Sink w) (beat_kind B.passes B.exact)
        (map (λ w. w.now) words.entry.now) keys.entry
        store.entry store.exit trace.old trace.new
        (outside (inflow I.Source input.old) (outflow O.Sink output.old))
        (outside (inflow I.Source input.new) (outflow O.Sink output.new)) result }
    ensures format { FormatDoes S.disk (λ w. outflow W.Sink w) (beat_kind B.passes B.exact)
        (map (λ w. w.now) words.entry.now) keys.entry
        store.entry store.exit trace.old trace.new
        (outside (inflow I.Source input.old) (outflow O.Sink output.old))
        (outside (inflow I.Source input.new) (outflow O.Sink output.new)) result
        (words_given (T.present tape.new) (T.drawn tape.new)) }
    ensures run { RunDoes S.disk (λ w. outflow W.Sink w) (beat_kind B.passes B.exact)
        (map (λ w. w.now) words.entry.now) keys.entry store.entry
        store.exit trace.old trace.new
        (outside (inflow I.Source input.old) (outflow O.Sink output.old))
        (outside (inflow I.Source input.new) (outflow O.Sink output.new)) result
        (words_given (T.present tape.new) (T.drawn tape.new)) }
    // The headline: what a run promises over a store that stood, on one page.
    ensures headline { KeepsHeadline S.disk (λ w. outflow W.Sink w) (beat_kind B.passes B.exact)
        (map (λ w. w.now) words.entry.now) keys.entry store.entry store.exit trace.old trace.new
        (outside (inflow I.Source input.old) (outflow O.Sink output.old))
        (outside (inflow I.Source input.new) (outflow O.Sink output.new)) result
        (words_given (T.present tape.new) (T.drawn tape.new)) }
    // What is asked for is done, where nothing stands against it but want of memory.
    ensures complete { Completes S.disk (λ w. outflow W.Sink w) (beat_kind B.passes B.exact)
        (words_given (T.present tape.new) (T.drawn tape.new))
        (map (λ w. w.now) words.entry.now) keys.entry trace.old trace.new
        (outside (inflow I.Source input.old) (outflow O.Sink output.old))
        (outside (inflow I.Source input.new) (outflow O.Sink output.new)) result store.entry
        store.exit }
    ensures drill_complete { DrillCompletes (map (λ w. w.now) words.entry.now)
        (outside (inflow I.Source input.old) (outflow O.Sink output.old))
        (outside (inflow I.Source input.new) (outflow O.Sink output.new)) result }
    ensures audit_complete { AuditCompletes (map (λ w. w.now) words.entry.now)
        (outside (inflow I.Source input.old) (outflow O.Sink output.old))
        (outside (inflow I.Source input.new) (outflow O.Sink output.new)) result }
{
    match store {
        Some(store) => do_with(rt, words, keys, store, tape, input, output, trace, beat),
        None => do_without(rt, words, keys, input, output),
    }
}
