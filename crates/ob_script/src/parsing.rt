//! Reading a script.

ghost use Rattle.std.specs.Prelude.{◌≡◌, ◌<◌, ◌∷◌, [], None, true, length, take, IfOk, IfErr, IfSome, IfNone};
ghost use Rattle.ob_script.specs.Script.{limit, lines_from, lines_of, is_within, start, ReadsLines, IsScript, AreSound};
ghost use Rattle.ob_script.specs.ScriptViews.{IsRefusal, state_of};

use crate::reader::Reader;
use crate::reading::cut;
use crate::scripts::Scripts;
use ob_base::Fault;
use std::alloc::Global;

/// The greatest length of a script, in bytes.
pub const LIMIT: usize = 1_048_576;

// What is in front of the first line's end, and what behind it. Where the bytes are all there is,
// the last line may lack its end.
fn next_line(all: bool, bytes: &[u8]) -> Option<(&[u8], &[u8])>
    ensures some { IfSome result (λ p. (lines_from all bytes.now ≡ p.0.now ∷ lines_from all p.1.now)
        × (length p.1.now < length bytes.now)) }
    ensures none { IfNone result (lines_from all bytes.now ≡ []) }
{
    if let Some((line, rest)) = cut(bytes, b'\n') {
        return Some((line, rest));
    }
    if !all {
        return None;
    }
    if bytes.is_empty() {
        return None;
    }
    Some((bytes, &bytes[..0]))
}

// The bytes up to the limit.
fn front(bytes: &[u8]) -> &[u8]
    ensures { result.now ≡ take limit bytes.now }
{
    if bytes.len() <= LIMIT {
        bytes
    } else {
        &bytes[..LIMIT]
    }
}

// Reads the lines of a script, up to the first bad one.
fn read_lines(reader: &mut Reader, alloc: Global, keys: u32, bytes: &[u8]) -> Result<(), Fault>
    requires { state_of reader.old ≡ start }
    ensures within { IfOk result (λ done. is_within bytes.now ≡ true) }
    ensures reads { IfOk result (λ done. ReadsLines keys start (lines_of bytes.now)
        (state_of reader.new)) }
    ensures whole { IfOk result (λ done. (state_of reader.new).open_asks ≡ None) }
    ensures refusal { IfErr result (λ fault. IsRefusal keys bytes.now fault) }
{
    let all = bytes.len() <= LIMIT;
    let mut rest = front(bytes);
    let mut number = 1;
    while let Some((text, after)) = next_line(all, rest) {
        if !reader.take_text(alloc, keys, text)? {
            return Err(Fault::BadScript { line: number });
        }
        rest = after;
        number += 1;
    }
    if !all || reader.open_asks.is_some() {
        return Err(Fault::BadScript { line: number });
    }
    Ok(())
}

/// Reads a script on keys below `keys`: lines of `client C`, `begin`, `get K`, `put K V`, `del K`,
/// `add K I`, `commit` and `abort`, empty lines and comments (`#` and any bytes), each ended by a
/// line feed, of which the last may be missing. Clients are from 1 to 64 and rise.
///
/// # Errors
/// `BadScript` names the first bad line, counted from 1: the first that breaks the grammar, or the
/// line after the last where the script ends inside a transaction, or the line of the first byte
/// past `LIMIT` where the lines before it are good. `Memory`: memory was wanting.
pub fn parse(alloc: Global, bytes: &[u8], keys: u32) -> Result<Scripts, Fault>
    ensures script { IfOk result (λ scripts. IsScript keys bytes.now scripts) }
    ensures sound { IfOk result (λ scripts. AreSound scripts) }
    ensures refusal { IfErr result (λ fault. IsRefusal keys bytes.now fault) }
{
    let mut reader = Reader::new(alloc);
    match read_lines(&mut reader, alloc, keys, bytes) {
        Ok(()) => Ok(Scripts::new(keys, reader.clients, reader.done)),
        Err(fault) => Err(fault),
    }
}
