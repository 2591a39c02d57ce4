//! The words of the process, and its standard descriptors.

use ob_base::Fault;
use std::env;
use std::fs::File;
use std::io::ErrorKind;

/// The words behind the program's name.
///
/// # Errors
/// `Usage` where one is no text, which makes them no command; `Memory`.
pub fn words_of(rt: &HostRuntime) -> Result<Vec<String>, Fault> {
    match env::args(rt) {
        Ok(words) => Ok(words.skip(1).collect(rt.alloc())?),
        Err(e) if e.kind() == ErrorKind::OutOfMemory => Err(Fault::Memory),
        Err(_) => Err(Fault::Usage),
    }
}

/// Takes those of the descriptors 0 to 2 that were handed over closed, so that no file that is
/// opened later is one of them: an input so taken is empty, and an output refuses what is written.
/// They are held as long as the files live.
///
/// # Errors
/// `StoreFault` where none can be had.
pub fn hold_standard(rt: &HostRuntime) -> Result<[File; 3], Fault> {
    let open = || File::open(rt, "/dev/null");
    match (open(), open(), open()) {
        (Ok(input), Ok(output), Ok(errors)) => Ok([input, output, errors]),
        _ => Err(Fault::StoreFault { unsure: None }),
    }
}
