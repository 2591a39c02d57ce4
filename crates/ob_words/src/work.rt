//! What a request of the words comes to: the command with its numbers, its keys and its files.

ghost use Rattle.std.specs.Prelude.{◌≡◌, ◌∷◌, [], map, option_map, is_some, MatchResult, IfOk, IfErr};
ghost use Rattle.ob_words.specs.Reading.{asked_of};
ghost use Rattle.ob_words.specs.Work.{Denotes, AreParams, IsBadNumber, AreLanes, AreBadLanes, IsShare, IsCount, IsBadCount, IsWorkOf, IsOutOfRange, AskFor, IsRefusedFor, AreFilesOf, AreWanted, HasKeys, IsKeysRefused, IsTapeKey};

use crate::request::{Request, WordsErr, read_words};
use ob_base::{Fault, Field, Memory, Params};
use ob_script::number_of;
use ob_seal::Keys;
use ob_shares::Shares;
use std::alloc::Global;

/// What the words ask for.
#[derive(Clone, Copy)]
pub enum Work {
    /// The trace that comes in is audited.
    Audit,
    /// So many transactions, at most 10,000, are made over a store of its own.
    Drill { count: u32 },
    /// Something over a store.
    OnStore(Command),
}

/// What the words ask for over a store.
#[derive(Clone, Copy)]
pub enum Command {
    /// An empty store is made, of these parameters; and a trace of it where `traced`.
    Format {
        params: Params,
        traced: bool,
    },
    /// The script that comes in is run. The vault's batches may have so many lanes, from 1 to 16;
    /// with `turns` all clients' calls are made by hand; there is a trace of it where `traced`, and a
    /// mirror of the store where `mirrored`, never both; and each client has these shares, of which 0
    /// fits no run.
    Run {
        lanes: u32,
        turns: bool,
        traced: bool,
        mirrored: bool,
        shares: Shares,
    },
}

/// The files that the words call for.
#[derive(Clone, Copy)]
pub struct Paths<'a> {
    /// The store's path, and whether it may be made.
    pub store: Option<(&'a str, bool)>,
    /// The key file's path.
    pub keys: Option<&'a str>,
    /// The trace's path.
    pub trace: Option<&'a str>,
    /// The path of the store's mirror; never beside a trace.
    pub mirror: Option<&'a str>,
}

// How many lanes a run has where no word says it.
const LANES: u32 = 4;

// The most lanes that a run may have.
const MOST_LANES: u32 = 16;

// The most transactions of a self-test.
const MOST_COUNT: u32 = 10_000;

// The number of a word; 0, which is in no range, where it is none.
fn number_in(word: &str) -> u32
    ensures { Denotes word.now result }
{
    match number_of(word.as_bytes()) {
        Some(n) => n,
        None => 0,
    }
}

// The parameters of nine words, or the first field out of its range.
fn params_in(
    n: &str,
    l: &str,
    z: &str,
    s: &str,
    r: &str,
    br: &str,
    bw: &str,
    e: &str,
    t: &str,
) -> Result<Params, Field>
    ensures { MatchResult result
        (λ p. AreParams (n.now ∷ l.now ∷ z.now ∷ s.now ∷ r.now ∷ br.now ∷ bw.now ∷ e.now ∷ t.now ∷
        []) p)
        (λ field. IsBadNumber
        (n.now ∷ l.now ∷ z.now ∷ s.now ∷ r.now ∷ br.now ∷ bw.now ∷ e.now ∷ t.now ∷ []) field) }
{
    Params::new(
        number_in(n),
        number_in(l),
        number_in(z),
        number_in(s),
        number_in(r),
        number_in(br),
        number_in(bw),
        number_in(e),
        number_in(t),
    )
}

// How many lanes the word of `--lanes` gives, if it is there.
fn lanes_in(word: Option<&str>) -> Result<u32, Field>
    ensures { MatchResult result (λ k. AreLanes (option_map (λ w. w.now) word.entry) k)
        (λ field. (field ≡ Field.LANES) × AreBadLanes (option_map (λ w. w.now) word.entry)) }
{
    let Some(word) = word else {
        return Ok(LANES);
    };
    match number_of(word.as_bytes()) {
        Some(k @ 1..=MOST_LANES) => Ok(k),
        _ => Err(Field::LANES),
    }
}

// The share that the word of `--reads` or `--writes` gives, if it is there; 0, which fits no run,
// where it is no number.
fn share_in(word: Option<&str>) -> Option<u32>
    ensures { IsShare (option_map (λ w. w.now) word.entry) result }
{
    match word {
        Some(word) => Some(number_in(word)),
        None => None,
    }
}

// How many transactions the word of `drill` gives.
fn count_in(word: &str) -> Result<u32, Field>
    ensures { MatchResult result (λ n. IsCount word.now n)
        (λ field. (field ≡ Field.COUNT) × IsBadCount word.now) }
{
    match number_of(word.as_bytes()) {
        Some(n @ 0..=MOST_COUNT) => Ok(n),
        _ => Err(Field::COUNT),
    }
}

// Whether an option has a value.
fn is_given(word: Option<&str>) -> bool
    ensures { result ≡ is_some (option_map (λ w. w.now) word.entry) }
{
    match word {
        Some(_) => true,
        None => false,
    }
}

// What a request asks for, or the first field that is out of its range.
fn work_in(request: &Request<'_>) -> Result<Work, Field>
    ensures { MatchResult result (λ work. IsWorkOf (asked_of request.now) work)
        (λ field. IsOutOfRange (asked_of request.now) field) }
{
    match request {
        Request::Format {
            n,
            l,
            z,
            s,
            r,
            br,
            bw,
            e,
            t,
            trace,
            ..
        } => match params_in(n, l, z, s, r, br, bw, e, t) {
            Ok(params) => Ok(Work::OnStore(Command::Format {
                params,
                traced: is_given(*trace),
            })),
            Err(field) => Err(field),
        },
        Request::Run {
            lanes,
            turns,
            trace,
            mirror,
            reads,
            writes,
            ..
        } => match lanes_in(*lanes) {
            Ok(lanes) => Ok(Work::OnStore(Command::Run {
                lanes,
                turns: *turns,
                traced: is_given(*trace),
                mirrored: is_given(*mirror),
                shares: Shares {
                    reads: share_in(*reads),
                    writes: share_in(*writes),
                },
            })),
            Err(field) => Err(field),
        },
        Request::Audit => Ok(Work::Audit),
        Request::Drill { count } => match count_in(count) {
            Ok(count) => Ok(Work::Drill { count }),
            Err(field) => Err(field),
        },
    }
}

/// What the words ask for.
///
/// # Errors
/// `Usage` for words that are no command with its operands and options; `BadParams` for a number out
/// of its range, the first one; and `Memory`.
pub fn work_of(alloc: Global, words: &[&str]) -> Result<Work, Fault>
    ensures work { IfOk result (λ work. AskFor (map (λ w. w.now) words.entry.now) work) }
    ensures refused { IfErr result
        (λ fault. IsRefusedFor (map (λ w. w.now) words.entry.now) fault) }
{
    let request = read_words(alloc, words)?;
    match work_in(&request) {
        Ok(work) => Ok(work),
        Err(field) => Err(Fault::BadParams { field }),
    }
}

/// The keys of a key file's text.
///
/// # Errors
/// `SourceFault` where no text was read, and `BadParams` naming KEYS where it isn't one of keys.
pub fn keys_of(text: Option<&[u8]>) -> Result<Keys, Fault>
    ensures { MatchResult result (λ keys. HasKeys text.entry keys)
        (λ fault. IsKeysRefused text.entry fault) }
{
    let Some(text) = text else {
        return Err(Fault::SourceFault);
    };
    match Keys::from_hex(text) {
        Some(keys) => Ok(keys),
        None => Err(Fault::BadParams { field: Field::KEYS }),
    }
}

/// The key of the tape, which is the third of a key file's text; zeros where no text was read or it
/// isn't one of keys.
pub fn tape_key(text: Option<&[u8]>) -> [u8; 32]
    ensures { IsTapeKey text.entry result }
{
    match keys_of(text) {
        Ok(keys) => keys.tape,
        Err(_) => [0; 32],
    }
}

// The files of a request: none where a number is out of its range, for an audit, or for a self-test.
fn paths_of<'a>(request: &Request<'a>) -> Paths<'a>
    ensures { AreFilesOf (asked_of request.now) (option_map (λ s. (s.0.now, s.1)) result.store)
        (option_map (λ k. k.now) result.keys) (option_map (λ t. t.now) result.trace)
        (option_map (λ m. m.now) result.mirror) }
{
    if work_in(request).is_err() {
        return Paths {
            store: None,
            keys: None,
            trace: None,
            mirror: None,
        };
    }
    match request {
        Request::Format {
            store,
            keys,
            trace,
            ..
        } => Paths {
            store: Some((*store, true)),
            keys: Some(*keys),
            trace: *trace,
            mirror: None,
        },
        Request::Run {
            store,
            keys,
            trace,
            mirror,
            ..
        } => Paths {
            store: Some((*store, false)),
            keys: Some(*keys),
            trace: *trace,
            mirror: *mirror,
        },
        Request::Audit | Request::Drill { .. } => Paths {
            store: None,
            keys: None,
            trace: None,
            mirror: None,
        },
    }
}

/// The files that the words call for, so that nothing else is opened or made: none where they are
/// refused, where a number is out of its range, for an audit, or for a self-test.
///
/// # Errors
/// Memory was wanting.
pub fn store_wanted<'a>(alloc: Global, words: &'a [&'a str]) -> Result<Paths<'a>, Memory>
    ensures { IfOk result (λ paths. AreWanted (map (λ w. w.now) words.entry.now)
        (option_map (λ s. (s.0.now, s.1)) paths.store) (option_map (λ k. k.now) paths.keys)
        (option_map (λ t. t.now) paths.trace) (option_map (λ m. m.now) paths.mirror)) }
{
    match read_words(alloc, words) {
        Ok(request) => Ok(paths_of(&request)),
        Err(WordsErr::Usage) => Ok(Paths {
            store: None,
            keys: None,
            trace: None,
            mirror: None,
        }),
        Err(WordsErr::Memory) => Err(Memory),
    }
}
