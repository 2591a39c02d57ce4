//! Which buckets of the store are among some.

ghost use Rattle.std.specs.Prelude.{◌≡◌, ◌<◌, ◌==◌, ℕ, IfOk, cond, true, false, slice_index_or, length};
ghost use Rattle.ob_base.specs.Tree.{buckets};
ghost use Rattle.ob_schedule.specs.Paths.{is_one_of};

use ob_base::{Params, buckets};
use std::alloc::{AllocError, Global};

fn mark(marks: &mut [bool], bucket: u32)
    ensures same { length marks.new ≡ length marks.old }
    ensures more { (u : ℕ) → u < length marks.old → slice_index_or marks.new u false
        ≡ cond (bucket == u) true (slice_index_or marks.old u false) }
{
    if (bucket as usize) < marks.len() {
        marks[bucket as usize] = true;
    }
}

fn mark_all(list: &[u32], marks: &mut [bool])
    ensures same { length marks.new ≡ length marks.old }
    ensures more { (u : ℕ) → u < length marks.old → slice_index_or marks.old u false ≡ false
        → slice_index_or marks.new u false ≡ is_one_of list.now u }
{
    for bucket in list {
        mark(marks, *bucket);
    }
}

/// Which buckets are among these.
pub(crate) fn marks_of(alloc: Global, p: &Params, list: &[u32]) -> Result<Vec<bool>, AllocError>
    ensures { IfOk result (λ marks. (u : ℕ) → u < buckets p.now
        → slice_index_or marks.items u false ≡ is_one_of list.now u) }
{
    let mut marks = vec![in alloc; false; buckets(p) as usize]?;
    mark_all(list, &mut marks);
    Ok(marks)
}
