//! The command line, as its parser is told.

ghost use Rattle.std.specs.Prelude.{◌≡◌, IfOk, false};
ghost use Rattle.clap.specs.Words.{app_of, rule_of, with_subcommand};
ghost use Rattle.ob_words.specs.Commands.{rule_for, shape_for, bare_app, program};

use clap::{Arg, ArgAction, Command};
use std::alloc::{AllocError, Global};

// A word of a command.
#[derive(Clone, Copy)]
enum Word {
    // One that has to be there.
    Operand(&'static str),
    // A value behind the word `--id`.
    Valued(&'static str),
    // The word `--id` alone.
    Flag(&'static str),
}

// The words of `format`.
const FORMAT: [Word; 12] = [
    Word::Operand("STORE"),
    Word::Operand("KEYS"),
    Word::Operand("N"),
    Word::Operand("L"),
    Word::Operand("Z"),
    Word::Operand("S"),
    Word::Operand("R"),
    Word::Operand("BR"),
    Word::Operand("BW"),
    Word::Operand("E"),
    Word::Operand("T"),
    Word::Valued("trace"),
];

// The words of `run`.
const RUN: [Word; 8] = [
    Word::Operand("STORE"),
    Word::Operand("KEYS"),
    Word::Valued("lanes"),
    Word::Valued("mirror"),
    Word::Valued("reads"),
    Word::Valued("writes"),
    Word::Valued("trace"),
    Word::Flag("turns"),
];

// The words of `drill`.
const DRILL: [Word; 1] = [Word::Operand("COUNT")];

fn arg_of<'a>(alloc: Global, word: Word) -> Arg<'a>
    ensures rule { rule_of result ≡ rule_for word }
    ensures local { result.global ≡ false }
{
    match word {
        Word::Operand(id) => Arg::new(alloc, id).required(true),
        Word::Valued(id) => Arg::new(alloc, id).long(id),
        Word::Flag(id) => Arg::new(alloc, id).long(id).action(ArgAction::SetTrue),
    }
}

// The program with one more command: its name, and its words in their order.
fn with_command<'a>(
    alloc: Global,
    program: Command<'a>,
    name: &'static str,
    words: &[Word],
) -> Result<Command<'a>, AllocError>
    ensures { IfOk result (λ c. app_of c
        ≡ with_subcommand (app_of program.entry) (shape_for name.entry.now words.entry.now)) }
{
    let mut command = Command::new(alloc, name);
    for word in words {
        command = command.arg(arg_of(alloc, *word))?;
    }
    program.subcommand(command)
}

// The program with no command yet.
fn bare_program<'a>(alloc: Global) -> Command<'a>
    ensures { app_of result ≡ bare_app }
{
    Command::new(alloc, "obladi")
        .no_binary_name(true)
        .disable_help_flag(true)
        .disable_help_subcommand(true)
        .subcommand_required(true)
}

/// The program, whose first word names a command. No word asks for help.
///
/// # Errors
/// Memory was wanting.
pub fn program_command<'a>(alloc: Global) -> Result<Command<'a>, AllocError>
    ensures app { IfOk result (λ c. app_of c ≡ program) }
{
    let command = with_command(alloc, bare_program(alloc), "format", &FORMAT)?;
    let command = with_command(alloc, command, "run", &RUN)?;
    let command = with_command(alloc, command, "audit", &[])?;
    with_command(alloc, command, "drill", &DRILL)
}
