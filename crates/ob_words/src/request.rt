//! What the words ask for.

ghost use Rattle.std.specs.Prelude.{◌≡◌, ◌≢◌, ◌⊎◌, [], map, option_map, option_and_then, Some, None, MatchResult, codes};
ghost use Rattle.clap.specs.Words.{first_of, found_of, rows_of, fault_of, kind_of, subcommand_rows_of};
ghost use Rattle.ob_words.specs.Commands.{program};
ghost use Rattle.ob_words.specs.Reading.{text_at, asked_of, asked_command, asked_by, fault_for};

use crate::commands::program_command;
use clap::error::ErrorKind;
use clap::{ArgMatches, Error};
use ob_base::Fault;
use std::alloc::Global;

/// What the words ask for: each operand as it stands, and each option's value where it was given.
#[derive(Clone, Copy)]
pub enum Request<'a> {
    /// An empty store in the file `store`, under the keys in the file `keys`, of nine numbers; and
    /// the file of its trace.
    Format {
        store: &'a str,
        keys: &'a str,
        n: &'a str,
        l: &'a str,
        z: &'a str,
        s: &'a str,
        r: &'a str,
        br: &'a str,
        bw: &'a str,
        e: &'a str,
        t: &'a str,
        trace: Option<&'a str>,
    },
    /// A run of the script that comes in over the store in the file `store`, under the keys in the
    /// file `keys`; by so many lanes, and in turns; the file of its trace, and that of the store's
    /// mirror; and each client's shares of reads and of writes.
    Run {
        store: &'a str,
        keys: &'a str,
        lanes: Option<&'a str>,
        turns: bool,
        trace: Option<&'a str>,
        mirror: Option<&'a str>,
        reads: Option<&'a str>,
        writes: Option<&'a str>,
    },
    /// An audit of the trace that comes in.
    Audit,
    /// A self-test of so many transactions.
    Drill {
        count: &'a str,
    },
}

/// Why the words weren't read.
#[derive(Clone, Copy)]
pub enum WordsErr {
    /// Memory was wanting.
    Memory,
    /// They are no command with its operands and options, or `run` with both a mirror and a trace.
    Usage,
}

impl From<WordsErr> for Fault {
    ghost from_gives = { λ e f. f ≡ fault_for e };

    fn from(error: WordsErr) -> Fault {
        match error {
            WordsErr::Memory => Fault::Memory,
            WordsErr::Usage => Fault::Usage,
        }
    }
}

// The text of an operand.
fn text_of<'a>(found: &ArgMatches<'a>, id: &str) -> &'a str
    ensures { result.now ≡ text_at id.now (rows_of (found_of found.now)) }
{
    found.get_str(id).unwrap_or("")
}

// The value of an option, where it was given.
fn value_of<'a>(found: &ArgMatches<'a>, id: &str) -> Option<&'a str>
    ensures { option_map (λ s. s.now) result ≡ first_of id.now (rows_of (found_of found.now)) }
{
    found.get_str(id)
}

fn format_request<'a>(found: &ArgMatches<'a>) -> Request<'a>
    ensures { Some (asked_of result)
        ≡ asked_command (codes "format") (rows_of (found_of found.now)) }
{
    Request::Format {
        store: text_of(found, "STORE"),
        keys: text_of(found, "KEYS"),
        n: text_of(found, "N"),
        l: text_of(found, "L"),
        z: text_of(found, "Z"),
        s: text_of(found, "S"),
        r: text_of(found, "R"),
        br: text_of(found, "BR"),
        bw: text_of(found, "BW"),
        e: text_of(found, "E"),
        t: text_of(found, "T"),
        trace: value_of(found, "trace"),
    }
}

fn run_request<'a>(found: &ArgMatches<'a>) -> Request<'a>
    ensures { Some (asked_of result) ≡ asked_command (codes "run") (rows_of (found_of found.now)) }
{
    Request::Run {
        store: text_of(found, "STORE"),
        keys: text_of(found, "KEYS"),
        lanes: value_of(found, "lanes"),
        turns: text_of(found, "turns") == "true",
        trace: value_of(found, "trace"),
        mirror: value_of(found, "mirror"),
        reads: value_of(found, "reads"),
        writes: value_of(found, "writes"),
    }
}

fn drill_request<'a>(found: &ArgMatches<'a>) -> Request<'a>
    ensures { Some (asked_of result)
        ≡ asked_command (codes "drill") (rows_of (found_of found.now)) }
{
    Request::Drill {
        count: text_of(found, "COUNT"),
    }
}

// The request of a parse: none where it met no command of the program.
fn request_of<'a>(matches: &ArgMatches<'a>) -> Option<Request<'a>>
    ensures { option_map asked_of result
        ≡ option_and_then (λ p. asked_command p.0 p.1) (subcommand_rows_of matches.now) }
{
    match matches.subcommand() {
        Some(("format", found)) => Some(format_request(found)),
        Some(("run", found)) => Some(run_request(found)),
        Some(("audit", _)) => Some(Request::Audit),
        Some(("drill", found)) => Some(drill_request(found)),
        _ => None,
    }
}

// Whether memory was wanting, or the words were refused.
fn cause_of(error: &Error) -> WordsErr
    ensures { ((kind_of error.now ≡ ErrorKind.OutOfMemory) × (result ≡ WordsErr.Memory))
        ⊎ ((kind_of error.now ≢ ErrorKind.OutOfMemory) × (result ≡ WordsErr.Usage)) }
{
    match error.kind() {
        ErrorKind::OutOfMemory => WordsErr::Memory,
        _ => WordsErr::Usage,
    }
}

/// Reads the words behind the program's name: just what a parse of the program's commands gives for
/// them.
///
/// # Errors
/// `Usage` where the parse refuses them for another cause than memory, and then only; `Memory`.
pub fn read_words<'a>(alloc: Global, words: &'a [&'a str]) -> Result<Request<'a>, WordsErr>
    ensures asked { MatchResult result (λ r. asked_by (map (λ w. w.now) words.entry.now)
        ≡ Some (asked_of r))
        (λ e. (e ≡ WordsErr.Memory)
        ⊎ ((e ≡ WordsErr.Usage) × (asked_by (map (λ w. w.now) words.entry.now) ≡ None))) }
    // The parse's own list of faults is empty where they are read, and isn't where they are
    // refused.
    ensures faults { MatchResult result (λ r. fault_of program (map (λ w. w.now) words.entry.now)
        ≡ [])
        (λ e. (e ≡ WordsErr.Memory)
        ⊎ (fault_of program (map (λ w. w.now) words.entry.now) ≢ [])) }
{
    let Ok(command) = program_command(alloc) else {
        return Err(WordsErr::Memory);
    };
    match command.try_get_matches_from(words) {
        Ok(matches) => match request_of(&matches) {
            Some(request) => Ok(request),
            None => Err(WordsErr::Usage),
        },
        Err(error) => Err(cause_of(&error)),
    }
}
