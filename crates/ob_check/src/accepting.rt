//! Whether a checkpoint's bytes obey all rules.

ghost use Rattle.std.specs.Prelude.{◌≡◌, ◌≤◌, ◌<◌, ◌^◌, length, MatchResult, replicate, false};
ghost use Rattle.ob_base.specs.Layout.{checkpoint_len};
ghost use Rattle.ob_cells.specs.Rules.{rule_damage};
ghost use Rattle.ob_tables.specs.Content.{Obeys, content_of};
ghost use Rattle.ob_check.specs.Fresh.{AreFresh, AreIdle};
ghost use Rattle.ob_check.specs.ReadBack.{IsAccepted, IsRefused};

use crate::broken::Broken;
use crate::building::fill;
use crate::rules::check_all;
use ob_base::{Damaged, Params, u64_at};
use ob_cells::{bad_epoch, bad_number};
use ob_tables::{Metas, Tables};

// What is told of a number that breaks its rule, where the bytes are those of the cells from `base`
// on.
fn told(base: u64, broken: &Broken) -> Damaged
    requires { base < 2 ^ 62 }
    ensures { result
        ≡ rule_damage base (record {
          place = broken.now.place;
          kept = broken.now.kept;
          obeys =
              false;
          least = broken.now.least;
        }) }
{
    bad_number(base + broken.place as u64 / 96, broken.kept, broken.least)
}

/// The tables that the bytes tell, into fresh ones, or what the bytes are refused for. No number is
/// marked yet.
pub fn accept(
    p: &Params,
    base: u64,
    epoch: u64,
    bytes: &[u8],
    tables: Tables<Metas>,
    placed: &mut [bool],
) -> Result<Tables<Metas>, Damaged>
    requires base { base < 2 ^ 62 }
    requires long { length bytes.now ≡ checkpoint_len p.now }
    requires fresh { AreFresh p.now tables }
    requires placed { placed.old ≡ replicate p.now.keys false }
    ensures { MatchResult result (λ t. IsAccepted p.now epoch bytes.now t
        × Obeys p.now (content_of t)
        × AreIdle p.now t) (λ d. IsRefused p.now base epoch bytes.now d) }
{
    let kept = u64_at(bytes, 0);
    if kept != epoch {
        return Err(bad_epoch(base, kept, epoch));
    }
    match check_all(p, bytes, placed) {
        Some(broken) => Err(told(base, &broken)),
        None => Ok(fill(p, bytes, tables)),
    }
}
