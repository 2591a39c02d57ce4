//! Traces for the tests, put together of the lines of a whole one.

use std::alloc::{AllocError, Global};
use std::process::Abort;

/// Ends the test where this isn't so, and names the case.
pub(crate) fn insist<R: Abort>(rt: &R, so: bool, case: &str) {
    assert!(rt; so, "{case}");
}

// The trace of a format and of a run of one epoch, made elsewhere. The format has 73 lines, and the
// opening of the run the lines from 74 to 99.
static WHOLE: &str =
    "P 8 2 2 3 2 2 2 2 8;W 0;S;W 2;W 4;W 6;W 8;W 10;W 12;W 14;W 16;S;W 4;S;W 3;S;W 4;S;\
     W 39;W 40;W 41;W 42;W 43;W 44;W 45;W 46;W 47;W 48;W 49;W 50;W 51;W 52;W 53;W 54;\
     W 55;W 56;W 57;W 58;W 59;W 60;W 61;W 62;W 63;W 64;W 65;W 66;W 67;W 68;W 69;W 70;\
     W 71;W 72;W 73;W 17;W 18;W 19;W 20;W 21;W 22;W 23;W 24;W 25;W 26;W 27;S;W 6;S;W 5;S;\
     W 6;S;W 0;S;O;R 0;R 1;R 2;R 3;R 4;R 5;R 6;R 7;R 8;R 17;R 18;R 19;R 20;R 21;R 22;\
     R 23;R 24;R 25;R 26;R 27;R 13;R 14;R 15;R 16;S;W 1;S;W 2;S;W 13;S;W 14;S;L 0;R 41;\
     R 46;R 56;L 0;R 42;R 47;R 57;W 15;S;W 16;S;L 0;R 43;R 39;R 40;R 48;R 44;R 45;R 58;\
     R 54;R 55;L 0;R 49;R 50;R 64;R 65;W 89;W 90;W 91;W 92;W 93;W 99;W 100;W 101;W 102;\
     W 103;W 79;W 80;W 81;W 82;W 83;W 84;W 85;W 86;W 87;W 88;W 74;W 75;W 76;W 77;W 78;\
     W 28;W 29;W 30;W 31;W 32;W 33;W 34;W 35;W 36;W 37;W 38;W 10;W 12;S;W 7;S;W 8;S";

fn push_line(line: &str, trace: &mut String) -> Result<(), AllocError> {
    write!(trace, "{line}\n")
}

// The lines of the whole trace from the one number to the other, counted from 1.
fn push_lines(first: usize, last: usize, trace: &mut String) -> Result<(), AllocError> {
    let mut number = 0usize;
    for line in WHOLE.split(';') {
        number = number.saturating_add(1);
        if first <= number && number <= last {
            push_line(line, trace)?;
        }
    }
    Ok(())
}

// The reads of the cells from the one to the other.
fn push_reads(first: usize, last: usize, trace: &mut String) -> Result<(), AllocError> {
    for cell in first..=last {
        write!(trace, "R {cell}\n")?;
    }
    Ok(())
}

fn number(digits: &str) -> usize {
    digits.parse::<usize>().unwrap_or(0)
}

fn push_part(part: &str, trace: &mut String) -> Result<(), AllocError> {
    if part == "fill" {
        for _ in 0..20 {
            push_lines(1, 73, trace)?;
        }
        return Ok(());
    }
    if let Some((first, last)) = part.split_once("..") {
        return push_reads(number(first), number(last), trace);
    }
    match part.split_once('-') {
        Some((first, last)) => push_lines(number(first), number(last), trace),
        None => push_line(part, trace),
    }
}

/// The trace of a recipe. A recipe's parts, between semicolons, are lines, or from where to where
/// lines of the whole trace are taken, or from where to where cells are read, as `5..8`, or `fill`:
/// format behind format, more than a piece that is read. The last line lacks its line feed behind a
/// `!`.
pub(crate) fn trace_of(alloc: Global, recipe: &str) -> Result<String, AllocError> {
    let mut trace = String::new(alloc);
    let parts = recipe.strip_suffix('!').unwrap_or(recipe);
    for part in parts.split(';') {
        push_part(part, &mut trace)?;
    }
    if parts.len() < recipe.len() {
        let _ = trace.pop();
    }
    Ok(trace)
}
