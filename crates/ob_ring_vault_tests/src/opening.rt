//! Ring stores, opened, and vaults over them.

ghost use Rattle.std.specs.Prelude.{◌≡◌, ◌≤◌, ℕ, map, true, IfOk};
ghost use Rattle.std.specs.FinMap as finite;
ghost use Rattle.std.specs.Ordering.{nat_cmp};
ghost use Rattle.ob_mem.specs.Memory.{disk_of_store};
ghost use Rattle.ob_vault.specs.RingVaults.{RingSound};
ghost use Rattle.ob_ring_vault_tests.specs.Opened.{opened_ring_at};
ghost use Rattle.ob_serial.specs.Serial.{Map};
ghost use Rattle.ob_serial.specs.Vaults.{VaultState};
ghost use Rattle.ob_plain_serial.specs.VaultRuns.{AnsweredBy, MayServeAll, answer_of, call_of};
ghost use Rattle.ob_stand.specs.Stands.{RingStanding, Stands};

use crate::calls::may_serve_all;
use ob_base::{Fault, Memory, Params, ring_cells};
use ob_lanes::Lanes;
use ob_mem::{Fail, MemStore};
use ob_opening::{format, prepare};
use ob_plain_serial::{Reply, Request, serve_all};
use ob_seal::{Keys, ListTape, Tape};
use ob_serial::Vault;
use ob_store::Watch;
use ob_vault::RingVault;
use std::alloc::Global;
use std::process::Abort;
use std::thread::Threads;

/// The bytes 0 to 95.
pub fn test_keys() -> Keys {
    let mut bytes = [0; 96];
    for i in 0..96 {
        bytes[i] = i as u8;
    }
    Keys::from_bytes(&bytes)
}

/// The parameters with these numbers.
pub fn params_of(rt: &impl Abort, numbers: [u32; 9]) -> Params {
    let [n, l, z, s, r, br, bw, e, t] = numbers;
    Params::new(n, l, z, s, r, br, bw, e, t).expect(rt, "parameters")
}

/// How a store is opened: its keys and its parameters, and how many lanes read at once.
#[derive(Drop)]
pub struct Setting {
    pub keys: Keys,
    pub p: Params,
    pub lanes: usize,
    pub ghost some: { 1 ≤ lanes },
    pub ghost few: { lanes ≤ 16 },
}

/// The parameters with these numbers, and so many lanes, from 1 to 16.
pub fn setting_of(rt: &impl Abort, numbers: [u32; 9], lanes: usize) -> Setting {
    assert!(rt; lanes >= 1);
    assert!(rt; lanes <= 16);
    Setting {
        keys: test_keys(),
        p: params_of(rt, numbers),
        lanes,
    }
}

/// A new ring store in memory, where these calls fail.
pub fn new_store<R: Abort + Threads + Sync, W: Watch>(
    rt: &R,
    alloc: Global,
    p: &Params,
    fails: &[Fail],
    watch: &mut W,
) -> MemStore
    ensures { (disk_of_store result).out ≡ 0 }
{
    let fails = fails.to_vec(alloc).expect(rt, "memory");
    let mut store = MemStore::new(alloc, ring_cells(p) as usize, fails).expect(rt, "memory");
    let mut tape = ListTape::new(alloc, &[]).expect(rt, "memory");
    assert!(rt; format(rt, alloc, &mut store, &mut tape, &test_keys(), p, watch).is_ok());
    store
}

/// A vault over a store that is opened. Where that stood it is sound, with what stood.
pub fn open_ring<'a, S: Lanes, R: Threads + Sync, T: Tape, W: Watch>(
    rt: &R,
    alloc: Global,
    store: &'a mut S,
    tape: &'a mut T,
    setting: &Setting,
    watch: &mut W,
) -> Result<RingVault<'a, S, T>, Fault>
    requires none_out { (S.disk store.old).out ≡ 0 }
    requires unstarted { T.present tape.old ≡ 0 }
    ensures params { IfOk result (λ vault. vault.run.params ≡ setting.now.p) }
    ensures sound { IfOk result (λ vault. (s : RingStanding) (content : Map nat_cmp)
        → (S.disk store.entry.now).tells
        → Stands setting.now.keys setting.now.p s (S.disk store.entry.now).cells
        → ((k : ℕ) → s.map k ≡ finite.get content k)
        → RingSound vault.run (S.disk vault.lent.store.now)
        (opened_ring_at setting.now.p s content)) }
{
    let Setting { keys, p, lanes } = setting;
    match prepare(rt, alloc, store, tape, keys, p, *lanes, watch) {
        Ok(opening) => Ok(RingVault::over(store, tape, opening)),
        Err(fault) => Err(fault),
    }
}

// Whether a vault takes these calls one behind the other.
fn takes<V: Vault>(vault: &V, p: &Params, requests: &[Request]) -> bool
    requires { V.params vault.now ≡ p.now }
    ensures { result ≡ true → MayServeAll (V.params vault.now) (V.counts vault.now) requests.now }
{
    if vault.spent() {
        return false;
    }
    let many = vault.left();
    may_serve_all(p, many, requests)
}

/// Makes calls on a vault, up to the first that it refuses: the answers are those of a map by
/// epochs, from the one that it held to the one that it holds.
pub fn serve<R: Abort + Threads + Sync, V: Vault, W: Watch>(
    rt: &R,
    alloc: Global,
    vault: &mut V,
    p: &Params,
    requests: &[Request],
    watch: &mut W,
) -> Result<Vec<Reply>, Memory>
    requires { V.params vault.old ≡ p.now }
    ensures law { (v : VaultState) → V.holds vault.old v
        → IfOk result (λ replies. (last : VaultState)
        × AnsweredBy v (map call_of requests.now) (map answer_of replies.items) last
        × V.holds vault.new last) }
{
    assert!(rt; takes(vault, p, requests));
    serve_all(rt, alloc, vault, requests, watch)
}

/// How calls behind an opening went.
#[derive(Drop)]
pub struct Served<'a, S> {
    pub store: &'a mut S,
    pub generation: u64,
    // The epoch that ended last before the calls, and the batches that were left.
    pub began: (u64, u32),
    pub replies: Vec<Reply>,
    // The same behind the calls, and whether one was refused.
    pub stands: (u64, u32, bool),
}

/// Opens a store, and makes calls on a ring vault over it. Where it stood, the answers are those of
/// a map by epochs, from the one that it stood for.
pub fn serve_store<'a, S: Lanes, R: Abort + Threads + Sync, T: Tape, W: Watch>(
    rt: &R,
    alloc: Global,
    store: &'a mut S,
    tape: &'a mut T,
    setting: &Setting,
    requests: &[Request],
    watch: &mut W,
) -> Result<Served<'a, S>, Fault>
    requires none_out { (S.disk store.old).out ≡ 0 }
    requires unstarted { T.present tape.old ≡ 0 }
    ensures none_out { IfOk result (λ served. (S.disk served.store.now).out ≡ 0) }
    ensures law { (s : RingStanding) (content : Map nat_cmp)
        → (S.disk store.entry.now).tells
        → Stands setting.now.keys setting.now.p s (S.disk store.entry.now).cells
        → ((k : ℕ) → s.map k ≡ finite.get content k)
        → IfOk result (λ served. (last : VaultState)
        × AnsweredBy (opened_ring_at setting.now.p s content) (map call_of requests.now)
        (map answer_of served.replies.items) last) }
{
    let mut vault = match open_ring(rt, alloc, store, tape, setting, watch) {
        Ok(vault) => vault,
        Err(fault) => return Err(fault),
    };
    let generation = vault.generation();
    let began = (vault.epoch(), vault.left());
    let answer = serve(rt, alloc, &mut vault, &setting.p, requests, watch);
    let stands = (vault.epoch(), vault.left(), vault.spent());
    let (store, _) = vault.into_lent();
    match answer {
        Ok(replies) => Ok(Served {
            store,
            generation,
            began,
            replies,
            stands,
        }),
        Err(Memory) => Err(Fault::Memory),
    }
}
