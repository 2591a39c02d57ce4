//! All bytes of a row written; all bytes of a source read.

ghost use Rattle.std.specs.Prelude.{◌≡◌, ◌≤◌, ◌<◌, ◌+◌, ◌^◌, ℕ, ◌++◌, length, take, vec_len, IfOk, OnOk, IsTrue, false};
ghost use Rattle.ob_base.specs.Causes.{HasCause};
ghost use Rattle.ob_io.specs.Flows.{appended, prepended, IsAtEnd, IsInput, IsFrontTaken, HasReadCause};

use crate::{ReadErr, Sink, Source};
use ob_base::Failed;
use std::alloc::Global;

/// Writes all the bytes, in as many pieces as the sink takes.
///
/// # Errors
/// The sink failed at a piece. A front of the bytes is written.
pub fn put_all<S: Sink>(sink: &mut S, bytes: &[u8]) -> Result<(), Failed>
    ensures all { OnOk result (S.written sink.new ≡ appended (S.written sink.old) bytes.now) }
    ensures front { (n : ℕ) × (n ≤ length bytes.now)
        × (S.written sink.new ≡ appended (S.written sink.old) (take n bytes.now)) }
    ensures cause { HasCause (S.faults sink.old) (S.faults sink.new) result }
{
    let mut at = 0;
    while at < bytes.len() {
        at += sink.write(&bytes[at..])?;
    }
    Ok(())
}

// Takes one part more, at most `room` bytes. Whether there was one.
fn read_part<S: Source>(source: &mut S, bytes: &mut Vec<u8>, room: usize) -> Result<bool, ReadErr>
    requires { 0 < room }
    ensures few { vec_len bytes.new ≤ vec_len bytes.old + room }
    ensures taken { IfOk result (λ more. prepended bytes.old.items (S.left source.old)
        ≡ prepended bytes.new.items (S.left source.new)) }
    ensures front { IsFrontTaken (S.left source.old) (S.left source.new) }
    ensures more { IfOk result (λ more. IsTrue more → vec_len bytes.old < vec_len bytes.new) }
    ensures end { IfOk result (λ more. more ≡ false → IsAtEnd (S.left source.new)) }
    ensures later { S.faults source.old ≤ S.faults source.new }
    ensures cause { HasReadCause (S.faults source.old) (S.faults source.new) result }
{
    let mut buffer = [0; 4096];
    let piece = &mut buffer[..room.min(4096)];
    let n = match source.read(piece) {
        Ok(n) => n,
        Err(Failed) => return Err(ReadErr::Failed),
    };
    match bytes.extend_from_slice(&piece[..n]) {
        Ok(()) => Ok(n > 0),
        Err(_) => Err(ReadErr::Memory),
    }
}

/// Takes what is left, up to `limit` bytes and one more: more than `limit` tells that the input is
/// too long.
///
/// # Errors
/// The source failed at a piece, or memory was wanting. A front of what was left is taken.
pub fn read_all<S: Source>(alloc: Global, source: &mut S, limit: usize) -> Result<Vec<u8>, ReadErr>
    requires { limit < 2 ^ 62 }
    ensures input { IfOk result (λ bytes. IsInput (S.left source.old) limit bytes.items) }
    ensures few { IfOk result (λ bytes. vec_len bytes ≤ limit + 1) }
    ensures taken { IfOk result (λ bytes. S.left source.old
        ≡ prepended bytes.items (S.left source.new)) }
    ensures front { IsFrontTaken (S.left source.old) (S.left source.new) }
    ensures later { S.faults source.old ≤ S.faults source.new }
    ensures cause { HasReadCause (S.faults source.old) (S.faults source.new) result }
{
    let mut bytes = Vec::new(alloc);
    while bytes.len() <= limit {
        let room = limit + 1 - bytes.len();
        if !read_part(source, &mut bytes, room)? {
            break;
        }
    }
    Ok(bytes)
}
