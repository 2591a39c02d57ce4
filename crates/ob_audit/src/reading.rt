//! Traces are read line by line, and each line is judged.

ghost use Rattle.std.specs.Prelude.{◌≡◌, ◌≢◌, ◌≤◌, ◌<◌, ◌+◌, ◌++◌, ◌∷◌, ◌^◌, [], ℕ, List, IfOk, IfErr, Some, None, take, length, MatchOption};
ghost use Rattle.ob_io.specs.Flows.{prepended, IsFrontTaken};
ghost use Rattle.ob_schedule.specs.Follow.{Follow};
ghost use Rattle.ob_follow.specs.Plain.{follow_of};
ghost use Rattle.ob_audit.specs.Traces.{TakesFirst, TakesNext, RefusesNext, IsVerdict, IsAudited, IsAuditFault};
ghost use Rattle.ob_audit.specs.Reader.{HasReadLines, TakesText, RefusesText, IsSettled, known_behind};

use crate::lines::line_of;
use crate::reader::{KEPT, Reader};
use crate::verdict::Audit;
use ob_base::{Failed, Fault};
use ob_follow::FollowPlain;
use ob_io::Source;
use ob_schedule::{Line, Wanted};
use std::alloc::{AllocError, Global};

// The most bytes that are audited.
const MOST: u64 = 1 << 32;

// What is known behind a first line, which has to begin a format.
fn first(alloc: Global, line: &Line) -> Result<Option<Box<FollowPlain>>, AllocError>
    ensures { IfOk result (λ first. MatchOption first
        ((next : Follow) → TakesFirst line.now next → ⊥)
        (λ known. TakesFirst line.now (follow_of known.value))) }
{
    match line {
        Line::Start(p) => Ok(Some(Box::new(alloc, FollowPlain::new(alloc, p)?)?)),
        _ => Ok(None),
    }
}

// Takes a line, if it may stand next; else answers what may.
fn follow(
    alloc: Global,
    known: &mut Option<Box<FollowPlain>>,
    line: &Line,
) -> Result<Option<Wanted>, AllocError>
    ensures { IfOk result (λ answer. MatchOption answer
        ((next : Follow) × TakesNext (known_behind known.old) line.now next
        × (known_behind known.new ≡ Some next))
        (λ wanted. RefusesNext (known_behind known.old) line.now wanted)) }
{
    match known.take() {
        Some(mut present) => {
            let answer = present.next(alloc, line);
            *known = Some(present);
            answer
        }
        None => match first(alloc, line) {
            Ok(Some(begun)) => {
                *known = Some(begun);
                Ok(None)
            }
            Ok(None) => Ok(Some(Wanted::Start)),
            Err(error) => Err(error),
        },
    }
}

// Judges a line, of which these bytes are kept, behind so many lines.
fn judge(
    alloc: Global,
    known: &mut Option<Box<FollowPlain>>,
    kept: &[u8],
    lines: u64,
) -> Result<Option<Audit>, AllocError>
    requires few { lines < 2 ^ 62 }
    ensures { (text : List ℕ) → kept.now ≡ take 97 text
        → IfOk result (λ answer. MatchOption answer
        (TakesText (known_behind known.old) text (known_behind known.new))
        (λ audit. RefusesText (known_behind known.old) text lines audit)) }
{
    let found = line_of(kept);
    match follow(alloc, known, &found) {
        Ok(None) => Ok(None),
        Ok(Some(wanted)) => Ok(Some(Audit::Breaks {
            line: lines + 1,
            wanted,
            found,
        })),
        Err(error) => Err(error),
    }
}

impl Reader {
    fn new() -> Reader
        ensures read { HasReadLines result [] }
        ensures within { result.len ≤ 97 }
        ensures few { result.lines ≤ result.seen }
        ensures seen { result.seen ≡ 0 }
    {
        Reader {
            lines: 0,
            seen: 0,
            known: None,
            begun: [0; KEPT],
            len: 0,
        }
    }

    // Keeps a byte of the line that is begun, unless that is too long already.
    fn push(&mut self, byte: u8)
        requires other { byte ≢ 10 }
        requires within { self.old.len ≤ 97 }
        requires few { self.old.seen < 2 ^ 62 }
        ensures within { self.new.len ≤ 97 }
        ensures seen { self.new.seen ≡ self.old.seen + 1 }
        ensures lines { self.new.lines ≡ self.old.lines }
        ensures read { (bytes : List ℕ) → HasReadLines self.old bytes
            → HasReadLines self.new (bytes ++ byte ∷ []) }
    {
        self.seen += 1;
        if self.len < KEPT {
            self.begun[self.len] = byte;
            self.len += 1;
        }
    }

    // Ends the line that is begun, by a line feed, and judges it.
    fn end_line(&mut self, alloc: Global, limit: u64) -> Result<Option<Audit>, AllocError>
        requires within { self.old.len ≤ 97 }
        requires few { self.old.lines ≤ self.old.seen }
        requires seen { self.old.seen < limit }
        requires limit { limit < 2 ^ 62 }
        ensures within { self.new.len ≤ 97 }
        ensures few { self.new.lines ≤ self.new.seen }
        ensures seen { self.new.seen ≤ limit }
        ensures more { IfOk result (λ answer. answer ≡ None
            → self.new.seen ≡ self.old.seen + 1) }
        ensures read { (bytes : List ℕ) → HasReadLines self.old bytes
            → IfOk result (λ answer. MatchOption answer (HasReadLines self.new (bytes ++ 10 ∷ []))
            (λ audit. IsSettled limit (bytes ++ 10 ∷ []) audit)) }
    {
        match judge(alloc, &mut self.known, &self.begun[..self.len], self.lines) {
            Ok(Some(audit)) => Ok(Some(audit)),
            Ok(None) => {
                self.seen += 1;
                self.lines += 1;
                self.len = 0;
                Ok(None)
            }
            Err(error) => Err(error),
        }
    }

    // Takes a byte.
    fn take_byte(
        &mut self,
        alloc: Global,
        limit: u64,
        byte: u8,
    ) -> Result<Option<Audit>, AllocError>
        requires within { self.old.len ≤ 97 }
        requires few { self.old.lines ≤ self.old.seen }
        requires seen { self.old.seen ≤ limit }
        requires limit { limit < 2 ^ 62 }
        ensures within { self.new.len ≤ 97 }
        ensures few { self.new.lines ≤ self.new.seen }
        ensures seen { self.new.seen ≤ limit }
        ensures more { IfOk result (λ answer. answer ≡ None
            → self.new.seen ≡ self.old.seen + 1) }
        ensures read { (bytes : List ℕ) → HasReadLines self.old bytes
            → IfOk result (λ answer. MatchOption answer (HasReadLines self.new (bytes ++ byte ∷ []))
            (λ audit. IsSettled limit (bytes ++ byte ∷ []) audit)) }
    {
        if self.seen == limit {
            return Ok(Some(Audit::Breaks {
                line: self.lines + 1,
                wanted: Wanted::End,
                found: Line::Bad,
            }));
        }
        if byte == b'\n' {
            return self.end_line(alloc, limit);
        }
        self.push(byte);
        Ok(None)
    }

    // Takes the bytes of a piece.
    fn take_piece(
        &mut self,
        alloc: Global,
        limit: u64,
        piece: &[u8],
    ) -> Result<Option<Audit>, AllocError>
        requires within { self.old.len ≤ 97 }
        requires few { self.old.lines ≤ self.old.seen }
        requires seen { self.old.seen ≤ limit }
        requires limit { limit < 2 ^ 62 }
        ensures within { self.new.len ≤ 97 }
        ensures few { self.new.lines ≤ self.new.seen }
        ensures seen { self.new.seen ≤ limit }
        ensures more { IfOk result (λ answer. answer ≡ None
            → self.new.seen ≡ self.old.seen + length piece.now) }
        ensures read { (bytes : List ℕ) → HasReadLines self.old bytes
            → IfOk result (λ answer. MatchOption answer (HasReadLines self.new (bytes ++ piece.now))
            (λ audit. IsSettled limit (bytes ++ piece.now) audit)) }
    {
        for byte in piece {
            match self.take_byte(alloc, limit, *byte) {
                Ok(None) => {}
                Ok(Some(audit)) => return Ok(Some(audit)),
                Err(error) => return Err(error),
            }
        }
        Ok(None)
    }

    // The input has ended: the last line may lack its line feed.
    fn finish(&mut self, alloc: Global) -> Result<Audit, AllocError>
        requires within { self.old.len ≤ 97 }
        requires few { self.old.lines < 2 ^ 62 }
        ensures { (limit : ℕ) (bytes : List ℕ) → HasReadLines self.old bytes → length bytes ≤ limit
            → IfOk result (λ audit. IsVerdict limit bytes audit) }
    {
        if self.len == 0 {
            return Ok(Audit::Fits);
        }
        match judge(alloc, &mut self.known, &self.begun[..self.len], self.lines) {
            Ok(Some(audit)) => Ok(audit),
            Ok(None) => Ok(Audit::Fits),
            Err(error) => Err(error),
        }
    }
}

// Reads a piece, and answers what is found at its end or the input's.
fn read_piece<I: Source>(
    alloc: Global,
    source: &mut I,
    reader: &mut Reader,
    limit: u64,
) -> Result<Option<Audit>, Fault>
    requires within { reader.old.len ≤ 97 }
    requires few { reader.old.lines ≤ reader.old.seen }
    requires seen { reader.old.seen ≤ limit }
    requires limit { limit < 2 ^ 62 }
    ensures within { IfOk result (λ answer. answer ≡ None → reader.new.len ≤ 97) }
    ensures few { IfOk result (λ answer. answer ≡ None → reader.new.lines ≤ reader.new.seen) }
    ensures seen { IfOk result (λ answer. answer ≡ None → reader.new.seen ≤ limit) }
    ensures more { IfOk result (λ answer. answer ≡ None → reader.old.seen < reader.new.seen) }
    ensures later { I.faults source.old ≤ I.faults source.new }
    ensures cause { IfErr result (λ fault. IsAuditFault (I.faults source.old) (I.faults source.new)
        fault) }
    ensures front { IsFrontTaken (I.left source.old) (I.left source.new) }
    ensures read { (bytes : List ℕ) → HasReadLines reader.old bytes
        → IfOk result (λ answer. MatchOption answer
        ((piece : List ℕ) × (I.left source.old ≡ prepended piece (I.left source.new))
        × HasReadLines reader.new (bytes ++ piece))
        (λ audit. IsAudited (prepended bytes (I.left source.old)) limit audit)) }
{
    let mut buffer = [0; 4096];
    let n = match source.read(&mut buffer) {
        Ok(n) => n,
        Err(Failed) => return Err(Fault::SourceFault),
    };
    if n == 0 {
        return match reader.finish(alloc) {
            Ok(audit) => Ok(Some(audit)),
            Err(_) => Err(Fault::Memory),
        };
    }
    match reader.take_piece(alloc, limit, &buffer[..n]) {
        Ok(answer) => Ok(answer),
        Err(_) => Err(Fault::Memory),
    }
}

/// Audits a trace of at most so many bytes: whether each of its lines may stand where it stands,
/// behind those before it, or the first that may not. The line of the byte past the limit may not,
/// and the end is wanted there.
///
/// # Errors
/// `SourceFault`: the source failed at a piece. `Memory`. A front of what was left is taken.
pub fn audit_up_to<I: Source>(alloc: Global, source: &mut I, limit: u64) -> Result<Audit, Fault>
    requires { limit < 2 ^ 62 }
    ensures audited { IfOk result (λ audit. IsAudited (I.left source.old) limit audit) }
    ensures front { IsFrontTaken (I.left source.old) (I.left source.new) }
    ensures later { I.faults source.old ≤ I.faults source.new }
    ensures cause { IfErr result (λ fault. IsAuditFault (I.faults source.old) (I.faults source.new)
        fault) }
{
    let mut reader = Reader::new();
    loop {
        match read_piece(alloc, source, &mut reader, limit) {
            Ok(None) => {}
            Ok(Some(audit)) => return Ok(audit),
            Err(fault) => return Err(fault),
        }
    }
}

/// Audits a trace of at most `2^32` bytes.
///
/// # Errors
/// As [`audit_up_to`].
pub fn audit<I: Source>(alloc: Global, source: &mut I) -> Result<Audit, Fault>
    ensures audited { IfOk result (λ audit. IsAudited (I.left source.old) (2 ^ 32) audit) }
    ensures front { IsFrontTaken (I.left source.old) (I.left source.new) }
    ensures later { I.faults source.old ≤ I.faults source.new }
    ensures cause { IfErr result (λ fault. IsAuditFault (I.faults source.old) (I.faults source.new)
        fault) }
{
    audit_up_to(alloc, source, MOST)
}
