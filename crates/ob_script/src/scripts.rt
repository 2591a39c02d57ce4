//! A script that was read.

ghost use Rattle.std.specs.Prelude.{◌≡◌};
ghost use Rattle.ob_script.specs.Script.{AreSound};
ghost use Rattle.ob_script.specs.ScriptViews.{script_of, scripts_of};

use crate::line::ScriptTxn;
use ob_base::Key;
use std::marker::Model;

/// A script that was read: a bound that its keys are below, the clients that its client lines name
/// in rising order, and its transactions in order.
#[derive(Drop)]
pub struct Scripts {
    keys: Key,
    clients: Vec<u32>,
    txns: Vec<ScriptTxn>,
}

impl Model for Scripts {
    ghost use Rattle.ob_script.specs.Script.{Scripts as Script, AreSound};
    ghost use Rattle.ob_script.specs.ScriptViews.{scripts_of};

    ghost Value = { Script };

    ghost view = { λ s. scripts_of s.keys s.clients.items s.txns.items };

    ghost invariant = { λ s. AreSound (scripts_of s.keys s.clients.items s.txns.items) };
}

impl Scripts {
    /// The script of these transactions and clients.
    pub fn new(keys: Key, clients: Vec<u32>, txns: Vec<ScriptTxn>) -> Scripts
        requires { AreSound (scripts_of keys clients.items txns.items) }
        ensures { result ≡ scripts_of keys clients.items txns.items }
    {
        Scripts {
            keys,
            clients,
            txns,
        }
    }

    /// A number that is above every key that the script names: the bound that it was read with.
    pub fn keys(&self) -> Key
        ensures { result ≡ self.now.keys }
    {
        self.keys
    }

    /// The clients that the script's client lines name, in rising order, also those without a
    /// transaction.
    pub fn clients(&self) -> &[u32]
        ensures clients { result.now ≡ self.now.clients }
        ensures sound { AreSound self.now }
    {
        &self.clients
    }

    /// The transactions, in order.
    pub fn txns(&self) -> &[ScriptTxn]
        ensures txns { script_of result.now ≡ self.now.txns }
        ensures sound { AreSound self.now }
    {
        &self.txns
    }
}
