//! A row of calls on a vault.

ghost use Rattle.std.specs.Prelude.{◌≡◌, ◌<◌, ◌≤◌, ℕ, false, true, length, map, IfOk};
ghost use Rattle.ob_serial.specs.Vaults.{VaultState, VaultStep, Fetch, End, counts_next, vault_next};
ghost use Rattle.ob_serial.specs.VaultViews.{writes_of};
ghost use Rattle.ob_plain_serial.specs.VaultRuns.{call_of, answer_of, MayFetch, MayEnd, MayServe, MayServeAll, AnsweredBy};

use crate::calls::{Reply, Request};
use ob_base::{Key, Memory, Value, Write};
use ob_serial::{EndErr, Vault};
use ob_store::Watch;
use std::alloc::Global;
use std::thread::Threads;

// The values of a batch.
fn fetch<R: Threads + Sync, V: Vault, W: Watch>(
    rt: &R,
    alloc: Global,
    vault: &mut V,
    keys: &[Option<Key>],
    watch: &mut W,
) -> Result<Reply, Memory>
    requires { MayFetch (V.params vault.old) (V.counts vault.old) keys.now }
    ensures params { V.params vault.new ≡ V.params vault.old }
    ensures counts { IfOk result (λ reply. V.counts vault.new
        ≡ counts_next (V.params vault.old).batches (V.counts vault.old) (Fetch keys.now)
        (answer_of reply)) }
    ensures step { (v : VaultState) → V.holds vault.old v
        → IfOk result (λ reply. VaultStep v (Fetch keys.now) (answer_of reply)
        (vault_next v (Fetch keys.now) (answer_of reply))) }
    ensures holds { (v : VaultState) → V.holds vault.old v
        → IfOk result (λ reply. V.holds vault.new
        (vault_next v (Fetch keys.now) (answer_of reply))) }
{
    let mut values: Vec<Option<Value>> = vec![in alloc; None; keys.len()]?;
    match vault.fetch(rt, keys, &mut values, watch) {
        Ok(()) => Ok(Reply::Values(values)),
        Err(fault) => Ok(Reply::Refused(fault)),
    }
}

fn end<R: Threads + Sync, V: Vault, W: Watch>(
    rt: &R,
    vault: &mut V,
    writes: &[Write],
    watch: &mut W,
) -> Reply
    requires { MayEnd (V.params vault.old) (V.counts vault.old) writes.now }
    ensures params { V.params vault.new ≡ V.params vault.old }
    ensures counts { V.counts vault.new
        ≡ counts_next (V.params vault.old).batches (V.counts vault.old) (End (writes_of writes.now))
        (answer_of result) }
    ensures step { (v : VaultState) → V.holds vault.old v
        → VaultStep v (End (writes_of writes.now)) (answer_of result)
        (vault_next v (End (writes_of writes.now)) (answer_of result)) }
    ensures holds { (v : VaultState) → V.holds vault.old v
        → V.holds vault.new (vault_next v (End (writes_of writes.now)) (answer_of result)) }
{
    match vault.end(rt, writes, watch) {
        Ok(()) => Reply::Ended,
        Err(EndErr::Before(fault)) => Reply::Refused(fault),
        Err(EndErr::Unsure(fault)) => Reply::Doubt(fault),
    }
}

fn serve_one<R: Threads + Sync, V: Vault, W: Watch>(
    rt: &R,
    alloc: Global,
    vault: &mut V,
    request: &Request,
    watch: &mut W,
) -> Result<Reply, Memory>
    requires { MayServe (V.params vault.old) (V.counts vault.old) request.now }
    ensures params { V.params vault.new ≡ V.params vault.old }
    ensures counts { IfOk result (λ reply. V.counts vault.new
        ≡ counts_next (V.params vault.old).batches (V.counts vault.old) (call_of request.now)
        (answer_of reply)) }
    ensures step { (v : VaultState) → V.holds vault.old v
        → IfOk result (λ reply. VaultStep v (call_of request.now) (answer_of reply)
        (vault_next v (call_of request.now) (answer_of reply))) }
    ensures holds { (v : VaultState) → V.holds vault.old v
        → IfOk result (λ reply. V.holds vault.new
        (vault_next v (call_of request.now) (answer_of reply))) }
{
    match request {
        Request::Fetch(keys) => fetch(rt, alloc, vault, keys, watch),
        Request::End(writes) => Ok(end(rt, vault, writes, watch)),
    }
}

/// Makes calls on a vault, up to the first that it refuses. The answers are those of a map by
/// epochs.
///
/// # Errors
/// Memory was wanting.
pub fn serve_all<R: Threads + Sync, V: Vault, W: Watch>(
    rt: &R,
    alloc: Global,
    vault: &mut V,
    requests: &[Request],
    watch: &mut W,
) -> Result<Vec<Reply>, Memory>
    requires { MayServeAll (V.params vault.old) (V.counts vault.old) requests.now }
    // Over any list of calls the answers are those of a map by epochs, from the one that the vault
    // held to the one that it holds.
    ensures law { (v : VaultState) → V.holds vault.old v
        → IfOk result (λ replies. (last : VaultState)
        × AnsweredBy v (map call_of requests.now) (map answer_of replies.items) last
        × V.holds vault.new last) }
    // All are answered, unless one was refused.
    ensures all { IfOk result (λ replies. (V.counts vault.new).spent ≡ false
        → length replies.items ≡ length requests.now) }
    ensures few { IfOk result (λ replies. length replies.items ≤ length requests.now) }
    ensures params { V.params vault.new ≡ V.params vault.old }
{
    let mut replies = Vec::new(alloc);
    for request in requests {
        let reply = serve_one(rt, alloc, vault, request, watch)?;
        replies.push(reply)?;
        if vault.spent() {
            return Ok(replies);
        }
    }
    Ok(replies)
}
