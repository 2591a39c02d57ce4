//! The script of a self-test.

ghost use Rattle.std.specs.Prelude.{◌≡◌, ◌<◌, IfOk};
ghost use Rattle.ob_script.specs.Drill.{drill_script, drill_txn, key_given, number_behind};
ghost use Rattle.ob_script.specs.ScriptViews.{script_txn_of};

use crate::line::{Ask, Ending, ScriptTxn};
use crate::scripts::Scripts;
use ob_base::{Key, Memory};
use std::alloc::Global;

// The number behind another one.
fn number_behind(x: u64) -> u64
    ensures { result ≡ number_behind x }
{
    x.wrapping_mul(6364136223846793005)
        .wrapping_add(1442695040888963407)
}

// The key that a number gives.
fn key_given(x: u64) -> Key
    ensures given { result ≡ key_given x }
    ensures few { result < 256 }
{
    ((x >> 32) % 256) as u32
}

// A transaction that reads one key, and adds 1 to another one.
fn txn(alloc: Global, read: Key, added: Key) -> Result<ScriptTxn, Memory>
    ensures { IfOk result (λ txn. script_txn_of txn ≡ drill_txn read added) }
{
    let mut asks = Vec::with_capacity(alloc, 2)?;
    asks.push_reserved(Ask::Get { key: read });
    asks.push_reserved(Ask::Add {
        key: added,
        amount: 1,
    });
    Ok(ScriptTxn {
        client: 1,
        asks,
        ending: Ending::Commit,
    })
}

/// The script of a self-test of so many transactions, on 256 keys: each of client 1 reads a key,
/// adds 1 to another one and commits. The keys are those that a linear congruential generator
/// gives, so the same count is the same script everywhere.
///
/// # Errors
/// Memory was wanting.
pub fn drill(alloc: Global, count: u32) -> Result<Scripts, Memory>
    ensures { IfOk result (λ script. script ≡ drill_script count) }
{
    let mut clients = Vec::with_capacity(alloc, 1)?;
    clients.push_reserved(1);
    let mut txns = Vec::with_capacity(alloc, count as usize)?;
    let mut x = 1;
    for _ in 0..count {
        let read = number_behind(x);
        x = number_behind(read);
        txns.push_reserved(txn(alloc, key_given(read), key_given(x))?);
    }
    Ok(Scripts::new(256, clients, txns))
}
