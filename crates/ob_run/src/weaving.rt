//! The law of a hall's whole history over a vault.

ghost use Rattle.ob_serial.specs.VaultKinds.{kind_of};
ghost use Rattle.ob_run.specs.Woven.{HistoriesWeave};

use ob_serial::Vault;

/// A history of a hall that is legal from a new desk, whose driver made these acts in its entries
/// with a chain of the vault's calls, is one run of the desk over the vault: each client's entry is
/// a step of its own between them, each batch was delivered with the values of the vault's map, and
/// the committed transactions ran one by one.
pub fn history_is_woven<V: Vault>()
    ensures { HistoriesWeave (kind_of V.Vault) }
{}
