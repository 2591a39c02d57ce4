//! What is told of a number that breaks its rule.

ghost use Rattle.std.specs.Prelude.{◌≡◌};
ghost use Rattle.ob_base.specs.declared.fault.Check.TheVariants as check;
ghost use Rattle.ob_cells.specs.Numbers.{told_number};
ghost use Rattle.ob_cells.specs.Rules.{epoch_damage};

use ob_base::{Check, Damaged};

// A number as it is told of a damaged cell.
#[tactic(auto, unfolding(crate::specs::Numbers::told_number))]
fn told_number(n: u64) -> [u8; 16]
    ensures { result ≡ told_number n }
{
    let mut told = [0; 16];
    told[..8].copy_from_slice(&n.to_le_bytes());
    told
}

/// What is told of a number that breaks its rule: the number, and the least that obeys it.
pub fn bad_number(cell: u64, kept: u64, least: u64) -> Damaged
    ensures { result
        ≡ record {
          cell = cell;
          check = check.Form;
          kept = told_number kept;
          computed = told_number
              least;
        } }
{
    Damaged {
        cell,
        check: Check::Form,
        kept: told_number(kept),
        computed: told_number(least),
    }
}

/// What is told of another epoch than the wanted one: both.
pub fn bad_epoch(cell: u64, kept: u64, wanted: u64) -> Damaged
    ensures { result ≡ epoch_damage cell kept wanted }
{
    Damaged {
        cell,
        check: Check::Epoch,
        kept: told_number(kept),
        computed: told_number(wanted),
    }
}
