//! Runners of scripts over a transaction manager, call by call.

ghost use Rattle.std.specs.Prelude.{IfSome};
ghost use Rattle.ob_run_tests.specs.Served.{IsRunnerServed};
ghost use Rattle.ob_runner.specs.RunnerViews.{runner_state};

use ob_base::{Fault, Params, Value};
use ob_desk::{Begun, Desk, Done, Got};
use ob_runner::{ScriptRunner, sum_of};
use ob_script::{Scripts, parse};
use ob_serial::{Outcome, Why};
use ob_session::{Made, Runner, Said, Step};
use ob_shares::NO_SHARES;
use std::alloc::Global;
use std::process::Abort;

// A step of the runner.
fn step(runner: &mut ScriptRunner, desk: &mut Desk) -> (Step, Made)
    requires { IsRunnerServed (runner_state runner.old) desk.old }
    ensures { IsRunnerServed (runner_state runner.new) desk.new }
{
    runner.step(desk)
}

// A batch that gives its first key this value, and another none, where the epoch has one left.
#[tactic(auto, using(ob_order::proofs::Batches::taken_in_flight))]
fn round(runner: &ScriptRunner, desk: &mut Desk, value: Option<Value>) -> bool
    requires { IsRunnerServed (runner_state runner.now) desk.old }
    ensures { IsRunnerServed (runner_state runner.now) desk.new }
{
    let mut keys = [None; 2];
    let values = [value, None];
    if desk.look().left == 0 || desk.params().places != 2 {
        return false;
    }
    desk.take_batch(&mut keys);
    desk.deliver(&keys, &values);
    true
}

fn stop(runner: &ScriptRunner, desk: &mut Desk)
    requires { IsRunnerServed (runner_state runner.now) desk.old }
    ensures { IsRunnerServed (runner_state runner.now) desk.new }
{
    desk.stop(Fault::Memory);
}

// A runner of a client's part of a script, and a desk of 8 keys that has 2 batches of 2 keys and a
// write batch of 2; none where the client isn't one of the script's.
fn open(alloc: Global, scripts: &Scripts, client: u32) -> Option<(ScriptRunner, Desk)>
    ensures { IfSome result (λ p. IsRunnerServed (runner_state p.0) p.1) }
{
    let Ok(params) = Params::new(8, 2, 2, 3, 2, 2, 2, 2, 6) else {
        return None;
    };
    let clients = scripts.clients();
    if !clients.contains(&client) || scripts.keys() > params.keys {
        return None;
    }
    let Ok(runner) = ScriptRunner::new(alloc, scripts, client) else {
        return None;
    };
    let Ok(desk) = Desk::new(alloc, &params, 1, 2, clients, NO_SHARES) else {
        return None;
    };
    Some((runner, desk))
}

// What a call tells: its word; the ticket, the key or the client that it names, or else 0; how it
// was answered; and the value that it put or was answered.
type Told<'a> = (&'static str, u64, &'static str, &'a str);

fn text_of(value: &Option<Value>) -> &str {
    match value {
        None => "",
        Some(value) => str::from_utf8(value.as_slice()).unwrap_or("?"),
    }
}

fn told_got<'a>(word: &'static str, number: u64, got: &'a Got) -> Told<'a> {
    match got {
        Got::Value { value: None } => (word, number, "absent", ""),
        Got::Value { value } => (word, number, "is", text_of(value)),
        Got::Queued => (word, number, "queued", ""),
        Got::Aborted { .. } => (word, number, "aborted", ""),
    }
}

fn told_done(done: &Done) -> &'static str {
    match done {
        Done::Yes => "done",
        Done::Aborted { .. } => "aborted",
    }
}

fn told_of(said: &Said) -> Told {
    match said {
        Said::Begin { reply, .. } => match reply {
            Begun::Txn { txn } => ("begin", txn.ticket as u64, "done", ""),
            Begun::Stopped { .. } => ("begin", 0, "refused", ""),
        },
        Said::Get { key, reply, .. } => told_got("get", *key as u64, reply),
        Said::Poll { reply, .. } => told_got("poll", 0, reply),
        Said::Write {
            key,
            value,
            reply,
            ..
        } => {
            let word = if value.is_some() { "put" } else { "del" };
            (word, *key as u64, told_done(reply), text_of(value))
        }
        Said::Commit { reply, .. } => ("commit", 0, told_done(reply), ""),
        Said::Abort {
            why: Why::Asked,
            ..
        } => ("abort", 0, "asked", ""),
        Said::Abort { .. } => ("abort", 0, "else", ""),
        Said::Settled { outcome: None, .. } => ("settled", 0, "open", ""),
        Said::Settled {
            outcome: Some(Outcome::Aborted { .. }),
            ..
        } => { ("settled", 0, "aborted", "") }
        Said::Settled { .. } => ("settled", 0, "else", ""),
        Said::SignOff { client } => ("sign off", *client as u64, "done", ""),
        Said::Stop { .. } => ("stop", 0, "done", ""),
    }
}

fn stand_of(step: &Step) -> &'static str {
    match step {
        Step::Ran => "runs",
        Step::Waits => "waits",
        Step::Done => "over",
    }
}

// What is done at a desk.
#[derive(Clone, Copy)]
enum Turn<'a> {
    // The runner's step: what its call tells, and how the client stands then.
    Step(&'a str, u64, &'a str, &'a str, &'a str),
    // A batch, which gives its first key this value.
    Batch(Option<&'a str>),
    // The desk is stopped.
    Stop,
}

// What a step tells: a step without a call is empty.
fn told_by(made: &Made) -> Told {
    match &made.first {
        None => ("", 0, "", ""),
        Some(said) => told_of(said),
    }
}

// Takes a turn, and compares what it tells.
fn take<R: Abort>(rt: &R, runner: &mut ScriptRunner, desk: &mut Desk, turn: &Turn)
    requires { IsRunnerServed (runner_state runner.old) desk.old }
    ensures { IsRunnerServed (runner_state runner.new) desk.new }
{
    match *turn {
        Turn::Step(word, number, answer, value, stands) => {
            let (stand, made) = step(runner, desk);
            assert!(rt; told_by(&made) == (word, number, answer, value), "{word}");
            assert!(rt; stand_of(&stand) == stands, "{word}");
        }
        Turn::Batch(value) => {
            let value = match value {
                None => None,
                Some(text) => Value::new(text.as_bytes()),
            };
            assert!(rt; round(runner, desk, value));
        }
        Turn::Stop => stop(runner, desk),
    }
}

fn play<R: Abort>(rt: &R, runner: &mut ScriptRunner, desk: &mut Desk, turns: &[Turn])
    requires { IsRunnerServed (runner_state runner.old) desk.old }
{
    for turn in turns {
        take(rt, runner, desk, turn);
    }
}

// A script, one of its clients, and the turns of that one's runner.
type Row<'a> = (&'a [u8], u32, &'a [Turn<'a>]);

// Runs a client's part of a script, turn by turn.
fn expect<R: AllocGlobal + Abort>(rt: &R, row: &Row) {
    let &(script, client, turns) = row;
    let scripts = parse(rt.alloc(), script, 8).ok().expect(rt, "a script");
    let opened = open(rt.alloc(), &scripts, client);
    let (mut runner, mut desk) = opened.expect(rt, "a client");
    play(rt, &mut runner, &mut desk, turns);
}

const THREE: &[u8] = b"client 1\nbegin\nget 0\ncommit\nclient 2\nbegin\ndel 3\nabort\nclient 7\n";

static ROWS: [Row; 8] = [
    // An add to a text aborts.
    (
        b"client 1\nbegin\nput 5 hi\nadd 5 1\ncommit",
        1,
        &[
            Turn::Step("begin", 1, "done", "", "runs"),
            Turn::Step("put", 5, "done", "hi", "runs"),
            Turn::Step("get", 5, "is", "hi", "runs"),
            Turn::Step("abort", 0, "asked", "", "runs"),
            Turn::Step("sign off", 1, "done", "", "over"),
            Turn::Step("", 0, "", "", "over"),
        ],
    ),
    // An absent value counts as 0.
    (
        b"client 1\nbegin\nadd 5 3\ncommit",
        1,
        &[
            Turn::Step("begin", 1, "done", "", "runs"),
            Turn::Step("get", 5, "queued", "", "waits"),
            Turn::Step("poll", 0, "queued", "", "waits"),
            Turn::Batch(None),
            Turn::Step("poll", 0, "absent", "", "runs"),
            Turn::Step("put", 5, "done", "3", "runs"),
            Turn::Step("commit", 0, "done", "", "runs"),
            Turn::Step("settled", 0, "open", "", "waits"),
            Turn::Step("settled", 0, "open", "", "waits"),
            Turn::Stop,
            Turn::Step("settled", 0, "aborted", "", "runs"),
            Turn::Step("sign off", 1, "done", "", "over"),
        ],
    ),
    // An add puts the sum.
    (
        b"client 1\nbegin\nadd 5 1\nadd 5 -50\nget 5\ndel 5\nadd 5 0\ncommit\n",
        1,
        &[
            Turn::Step("begin", 1, "done", "", "runs"),
            Turn::Step("get", 5, "queued", "", "waits"),
            Turn::Batch(Some("41")),
            Turn::Step("poll", 0, "is", "41", "runs"),
            Turn::Step("put", 5, "done", "42", "runs"),
            Turn::Step("get", 5, "is", "42", "runs"),
            Turn::Step("put", 5, "done", "-8", "runs"),
            Turn::Step("get", 5, "is", "-8", "runs"),
            Turn::Step("del", 5, "done", "", "runs"),
            Turn::Step("get", 5, "absent", "", "runs"),
            Turn::Step("put", 5, "done", "0", "runs"),
            Turn::Step("commit", 0, "done", "", "runs"),
            Turn::Step("settled", 0, "open", "", "waits"),
        ],
    ),
    // An aborted transaction is left.
    (
        b"client 1\nbegin\nput 0 a\nput 1 b\nput 2 c\nput 3 d\ncommit\nbegin\nput 4 e\nabort\nbegin\ncommit",
        1,
        &[
            Turn::Step("begin", 1, "done", "", "runs"),
            Turn::Step("put", 0, "done", "a", "runs"),
            Turn::Step("put", 1, "done", "b", "runs"),
            Turn::Step("put", 2, "aborted", "c", "runs"),
            Turn::Step("begin", 2, "done", "", "runs"),
            Turn::Step("put", 4, "done", "e", "runs"),
            Turn::Step("abort", 0, "asked", "", "runs"),
            Turn::Step("begin", 3, "done", "", "runs"),
            Turn::Step("commit", 0, "done", "", "runs"),
            Turn::Step("settled", 0, "open", "", "waits"),
        ],
    ),
    // A stopped desk ends the script.
    (
        b"client 1\nbegin\nget 5\ncommit\nbegin\ncommit\nbegin\ncommit",
        1,
        &[
            Turn::Step("begin", 1, "done", "", "runs"),
            Turn::Step("get", 5, "queued", "", "waits"),
            Turn::Stop,
            Turn::Step("poll", 0, "aborted", "", "runs"),
            Turn::Step("begin", 0, "refused", "", "runs"),
            Turn::Step("sign off", 1, "done", "", "over"),
            Turn::Step("", 0, "", "", "over"),
        ],
    ),
    // A runner has its own client.
    (
        THREE,
        2,
        &[
            Turn::Step("begin", 1, "done", "", "runs"),
            Turn::Step("del", 3, "done", "", "runs"),
            Turn::Step("abort", 0, "asked", "", "runs"),
            Turn::Step("sign off", 2, "done", "", "over"),
            Turn::Step("", 0, "", "", "over"),
        ],
    ),
    (
        THREE,
        1,
        &[
            Turn::Step("begin", 1, "done", "", "runs"),
            Turn::Step("get", 0, "queued", "", "waits"),
        ],
    ),
    (THREE, 7, &[Turn::Step("sign off", 7, "done", "", "over")]),
];

#[test]
fn a_runner_makes_the_calls_of_its_script(rt: HostRuntime) {
    for row in &ROWS {
        expect(&rt, row);
    }
}

// A text, an amount, and the sum of both as it is spelled, or none.
static SUMS: [(&str, i64, Option<&str>); 12] = [
    ("7", -7, Some("0")),
    ("-1", 2, Some("1")),
    ("9223372036854775806", 1, Some("9223372036854775807")),
    ("9223372036854775807", 1, None),
    ("-9223372036854775807", -1, Some("-9223372036854775808")),
    ("-9223372036854775808", -1, None),
    ("9223372036854775808", -1, None),
    ("007", 1, None),
    ("-0", 1, None),
    ("+1", 1, None),
    ("", 1, None),
    ("1 ", 1, None),
];

#[test]
fn a_sum_is_in_range(rt: HostRuntime) {
    for &(text, amount, wanted) in &SUMS {
        let sum = sum_of(&Value::new(text.as_bytes()), amount);
        assert!(&rt;
            sum.is_some() == wanted.is_some() && text_of(&sum) == wanted.unwrap_or(""),
            "{text}"
        );
    }
}
