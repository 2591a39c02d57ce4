//! Bytes gathered for a sink.

ghost use Rattle.std.specs.Prelude.{◌≡◌, ◌<◌, ◌≤◌, ◌++◌, [], length, take, OnOk};
ghost use Rattle.arrayvec.specs.ArrayVec.{array_vec_len};
ghost use Rattle.ob_report.specs.Gathered.{gathered, Gathers};

use arrayvec::ArrayVec;
use ob_base::Failed;
use ob_io::{Sink, put_all};

/// Bytes that are gathered for a sink, so that it gets them in large pieces.
pub type Page = ArrayVec<u8, 4096>;

/// Hands over what is held, and holds nothing from then on.
///
/// # Errors
/// The sink failed. A front of what was held is written.
pub fn hand_over<S: Sink>(sink: &mut S, page: &mut Page) -> Result<(), Failed>
    ensures gathers { Gathers []
        (gathered S.Sink sink.old page.old.items)
        (gathered S.Sink sink.new page.new.items) result }
    ensures empty { page.new.items ≡ [] }
{
    let handed = put_all(sink, page.as_slice());
    page.clear();
    handed
}

// Sees to it that a byte more has place.
fn make_room<S: Sink>(sink: &mut S, page: &mut Page) -> Result<(), Failed>
    ensures gathers { Gathers []
        (gathered S.Sink sink.old page.old.items)
        (gathered S.Sink sink.new page.new.items) result }
    ensures room { OnOk result (array_vec_len page.new < 4096) }
{
    if page.is_full() {
        return hand_over(sink, page);
    }
    Ok(())
}

// Holds as many bytes of the front of a part as have place, and tells how many those are.
fn hold(page: &mut Page, part: &[u8]) -> usize
    requires room { array_vec_len page.old < 4096 }
    requires some { 0 < length part.now }
    ensures some { (0 < result) × (result ≤ length part.now) }
    ensures held { page.new.items ≡ page.old.items ++ take result part.now }
{
    let n = part.len().min(page.remaining_capacity());
    let _ = page.try_extend_from_slice(&part[..n]);
    n
}

/// Gathers bytes, and hands over what is held each time it is a page.
///
/// # Errors
/// The sink failed. A front of what was held and of the bytes is written.
pub fn put_bytes<S: Sink>(sink: &mut S, page: &mut Page, bytes: &[u8]) -> Result<(), Failed>
    ensures { Gathers bytes.now
        (gathered S.Sink sink.old page.old.items)
        (gathered S.Sink sink.new page.new.items) result }
{
    let mut at = 0;
    while at < bytes.len() {
        make_room(sink, page)?;
        at += hold(page, &bytes[at..]);
    }
    Ok(())
}
