//! The ring vault is a vault over a ring store, in the words of these laws.

ghost use Rattle.ob_ring_world.specs.Runs.{IsOverRing};
ghost use Rattle.ob_serial.specs.VaultKinds.{kind_of};
ghost use Rattle.ob_vault.specs.RingVaults.{running};

use ob_lanes::Lanes;
use ob_seal::Tape;
use ob_serial::Vault;
use ob_vault::RingVault;

/// The ring vault is such a vault, over any store and any tape that it was lent: so the law of runs
/// is of it.
pub fn ring_vaults_are_over_rings<'a, S: Lanes + 'a, T: Tape + 'a>()
    ensures over { IsOverRing (kind_of ⟦<RingVault<'a, S, T> as Vault>⟧) (λ store. S.disk store)
        (λ v. running v.lent.store.now (T.present v.lent.tape.now) (T.drawn v.lent.tape.now) v.crew.lanes v.run) }
{}
