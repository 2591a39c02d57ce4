//! The rules of the eviction counter and of the keys.

ghost use Rattle.std.specs.Prelude.{◌≡◌, ◌<◌, ◌^◌, ◌==◌, ◌||◌, not, nat_lt, length};
ghost use Rattle.std.specs.List.{flat_map};
ghost use Rattle.ob_base.specs.Layout.{checkpoint_len};
ghost use Rattle.ob_base.specs.Tree.{below};
ghost use Rattle.ob_cells.specs.Rules.{first_broken};
ghost use Rattle.ob_check.specs.Rules.{counter_rules, entry_rules};
ghost use Rattle.ob_check.specs.Marks.{rule_of};

use crate::broken::{Broken, check, first};
use crate::places::{entry_place, leaves};
use ob_base::{Params, u32_at, u64_at};

/// Tests the counter.
pub fn check_counter(p: &Params, bytes: &[u8]) -> Option<Broken>
    requires { length bytes.now ≡ checkpoint_len p.now }
    ensures { rule_of result ≡ first_broken (counter_rules p.now bytes.now) }
{
    let counter = u64_at(bytes, 8);
    check(8, counter, counter < leaves(p) as u64, 0)
}

// Whether a key's leaf may stand there.
fn leaf_stands(p: &Params, present: u8, leaf: u32) -> bool
    ensures { result ≡ (not (present == 1) || nat_lt leaf (2 ^ p.now.levels)) }
{
    if present != 1 {
        return true;
    }
    leaf < leaves(p)
}

// Tests what is kept of a key.
fn check_entry(p: &Params, bytes: &[u8], k: u32) -> Option<Broken>
    requires k { k < p.now.keys }
    requires long { length bytes.now ≡ checkpoint_len p.now }
    ensures { rule_of result ≡ first_broken (entry_rules p.now bytes.now k) }
{
    let at = entry_place(p, k);
    let present = bytes[at];
    let leaf = u32_at(bytes, at + 17);
    let one = check(at, present as u64, present <= 1, 0);
    let other = check(at + 17, leaf as u64, leaf_stands(p, present, leaf), 0);
    first(one, other)
}

/// Tests what is kept of each key.
pub fn check_entries(p: &Params, bytes: &[u8]) -> Option<Broken>
    requires { length bytes.now ≡ checkpoint_len p.now }
    ensures { rule_of result
        ≡ first_broken (flat_map (entry_rules p.now bytes.now) (below p.now.keys)) }
{
    for k in 0..p.keys {
        match check_entry(p, bytes, k) {
            Some(broken) => return Some(broken),
            None => {}
        }
    }
    None
}
