//! What the clients' calls named in an epoch.

ghost use Rattle.std.specs.Prelude.{◌≡◌, [], IfOk};
ghost use Rattle.ob_shares.specs.Shares as shares;
ghost use Rattle.ob_shares.specs.Seen.{uses_of};

use crate::named::Named;
use crate::shares::Shares;
use ob_base::{Memory, Params};
use std::alloc::Global;

/// The keys that gets named, and those that puts and deletes named, in the order of naming.
#[derive(Drop)]
pub struct Uses {
    pub reads: Vec<Named>,
    pub writes: Vec<Named>,
}

// Room for so many names, where there is a share, and for one more: a call makes room for a name
// before it is known whether it names another key.
fn room_for(alloc: Global, share: Option<u32>, most: u32) -> Result<Vec<Named>, Memory>
    ensures { IfOk result (λ names. names.items ≡ []) }
{
    if share.is_none() {
        return Ok(Vec::new(alloc));
    }
    Ok(Vec::with_capacity(alloc, most as usize + 1)?)
}

/// No names yet, with room for as many as clients that keep to these shares make together.
///
/// # Errors
/// Memory was wanting.
pub fn new_uses(alloc: Global, params: &Params, given: &Shares) -> Result<Uses, Memory>
    ensures { IfOk result (λ uses. uses_of uses ≡ shares.none_used) }
{
    let reads = room_for(alloc, given.reads, params.places)?;
    let writes = room_for(alloc, given.writes, params.writes)?;
    Ok(Uses { reads, writes })
}

/// An epoch begins: nothing was named.
pub fn clear_uses(uses: &mut Uses)
    ensures { uses_of uses.new ≡ shares.none_used }
{
    uses.reads.clear();
    uses.writes.clear();
}
