//! Opening a plain store.

ghost use Rattle.std.specs.Prelude.{◌≡◌, ◌≢◌, [], Err, IfOk, IfErr, length, replicate, None};
ghost use Rattle.ob_base.specs.declared.fault.Fault.TheVariants as fault;
ghost use Rattle.ob_store.specs.Calls.{Serves, IsStoreFault};
ghost use Rattle.ob_store.specs.Lines.{Shows};
ghost use Rattle.ob_flat.specs.Openings.{IsOpenFault, IsOpening};

use crate::opening::Opening;
use crate::places::area_of;
use crate::reading::read_values;
use ob_base::{Fault, Params, Value};
use ob_seal::{Keys, Sealer};
use ob_start::{begin, read_registers};
use ob_store::{Store, Watch};
use ob_twin::Gates;
use std::alloc::{AllocError, Global};

// So many keys without a value.
fn blank_values(alloc: Global, keys: u32) -> Result<Vec<Option<Value>>, AllocError>
    ensures { IfOk result (λ values. values.items ≡ replicate keys None) }
{
    // The prover has to see this type named here.
    let _told: Option<Value> = None;
    let mut values = Vec::new(alloc);
    for i in 0..keys {
        values.push(None)?;
    }
    Ok(values)
}

// Reads the registers and the rows, and begins the next generation.
fn open_into<S: Store, W: Watch>(
    store: &mut S,
    sealer: &Sealer,
    params: &Params,
    mut values: Vec<Option<Value>>,
    next: Vec<Option<Value>>,
    watch: &mut W,
) -> Result<Opening, Fault>
    requires whole { length values.items ≡ params.now.keys }
    requires room { length next.items ≡ params.now.keys }
    requires none_out { (S.disk store.old).out ≡ 0 }
    ensures serves { Serves IsStoreFault (S.disk store.old) (S.disk store.new) result }
    ensures faults { IfErr result IsOpenFault }
    ensures opening { IsOpening S.disk sealer.now.keys params.now store.old store.new
        (W.trace watch.old) (W.trace watch.new) result }
    ensures no_memory { IfErr result (λ refused. refused ≢ fault.Memory) }
{
    let mut gates = Gates::new();
    let numbers = match read_registers(store, sealer, &mut gates, watch) {
        Ok(numbers) => numbers,
        Err(fault) => return Err(fault),
    };
    let base = area_of(params.keys as u64, numbers.epoch);
    match read_values(store, sealer, base, &mut values, watch) {
        Ok(()) => {}
        Err(fault) => return Err(fault),
    }
    let generation = match begin(store, sealer, &mut gates, numbers.generation, watch) {
        Ok(generation) => generation,
        Err(fault) => return Err(fault),
    };
    Ok(Opening {
        params: *params,
        gates,
        sealer: Sealer::new(&sealer.keys(), generation),
        epoch: numbers.epoch,
        values,
        next,
    })
}

/// Reads a store of these parameters, as `head` gave them, from cell 1 on: both registers and the
/// rows of the epoch's area. Then it makes sure of what was written before, and begins the next
/// generation.
///
/// # Errors
/// Memory was wanting, and nothing was done; or the store failed, and its count of faults rose; or,
/// in this order, it is no store exactly where a register has no open gate; the first body under an
/// open gate that breaks a rule is damaged, in the order of cells; or the first row, in its tag,
/// then in its seal, which is the one behind the row before it, then in its presence, then in its
/// length; or, before anything is written, the next generation would be `2^62`. Whatever it
/// answers, each image that a crash may leave stands for what the store stood for.
pub fn prepare<S: Store, W: Watch>(
    alloc: Global,
    store: &mut S,
    keys: &Keys,
    params: &Params,
    watch: &mut W,
) -> Result<Opening, Fault>
    requires none_out { (S.disk store.old).out ≡ 0 }
    ensures serves { Serves IsStoreFault (S.disk store.old) (S.disk store.new) result }
    ensures faults { IfErr result IsOpenFault }
    ensures opening { IsOpening S.disk keys.now params.now store.old store.new (W.trace watch.old)
        (W.trace watch.new) result }
    ensures memory { result ≡ Err fault.Memory → (store.new ≡ store.old)
        × Shows [] (W.trace watch.old) (W.trace watch.new) }
{
    let values = match blank_values(alloc, params.keys) {
        Ok(values) => values,
        Err(_) => return Err(Fault::Memory),
    };
    let next = match blank_values(alloc, params.keys) {
        Ok(next) => next,
        Err(_) => return Err(Fault::Memory),
    };
    open_into(store, &Sealer::new(keys, 0), params, values, next, watch)
}
