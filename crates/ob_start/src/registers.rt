//! Reading both registers.

ghost use Rattle.std.specs.Prelude.{◌≡◌, ◌<◌, ◌^◌, ℕ, suc, None, IfOk, IfErr, OnOk, OnErr};
ghost use Rattle.ob_base.specs.declared.fault.Fault.TheVariants as fault;
ghost use Rattle.ob_store.specs.Disk.{Image};
ghost use Rattle.ob_store.specs.Images.{Same, Passes};
ghost use Rattle.ob_store.specs.Calls.{Serves, IsStoreFault, Keeps};
ghost use Rattle.ob_store.specs.Told.{Does};
ghost use Rattle.ob_seal.specs.declared.keys.Keys.{Keys};
ghost use Rattle.ob_twin.specs.Register.{first_of};
ghost use Rattle.ob_twin.specs.Opening.{known_of, with_known, GatesAre, HasOpen};
ghost use Rattle.ob_twin.specs.Orders.{get_notes};
ghost use Rattle.ob_twin.specs.Got.{DoesReads};
ghost use Rattle.ob_start.specs.Orders.{registers_notes};
ghost use Rattle.ob_start.specs.Registers.{IsRegister, IsNumber, IsBelow, AreRegisters, IsRegistersFault, KnowsGates, HaveOpen, register_held};

use ob_base::{Damaged, Fault};
use ob_seal::Sealer;
use ob_store::{Store, Watch};
use ob_twin::{Gates, Twin};

// What is read of a register.
#[derive(Drop)]
pub enum Register {
    // No gate is open.
    Closed,
    Number(u64),
    Broken(Damaged),
}

/// The numbers of both registers.
#[derive(Clone, Copy, Drop)]
pub struct Numbers {
    pub generation: u64,
    /// The last epoch that ended.
    pub epoch: u64,
}

// What was got of a register, with its damage held back.
fn held_back(got: Result<Option<u64>, Fault>) -> Result<Register, Fault>
    ensures { result ≡ register_held got }
{
    match got {
        Ok(None) => Ok(Register::Closed),
        Ok(Some(number)) => Ok(Register::Number(number)),
        Err(
            Fault::Damaged {
                cell,
                check,
                kept,
                computed,
            },
        ) => Ok(Register::Broken(Damaged {
            cell,
            check,
            kept,
            computed,
        })),
        Err(fault) => Err(fault),
    }
}

// Reads a register, and holds its damage back.
fn read_register<S: Store, W: Watch>(
    twin: Twin,
    store: &mut S,
    sealer: &Sealer,
    gates: &mut Gates,
    watch: &mut W,
) -> Result<Register, Fault>
    ensures serves { Serves IsStoreFault (S.disk store.old) (S.disk store.new) result }
    ensures faults { IfErr result (λ refused. refused ≡ fault.StoreFault None) }
    ensures value { (S.disk store.old).tells
        → IfOk result (IsRegister sealer.now.keys (first_of twin) (S.disk store.old).cells) }
    ensures below { IfOk result IsBelow }
    ensures gates { (S.disk store.old).tells
        → OnOk result (KnowsGates twin gates.old gates.new (S.disk store.old).cells) }
    ensures some { IfOk result (λ register. IsNumber register → HasOpen (known_of twin gates.new)) }
    ensures other { gates.new ≡ with_known twin gates.old (known_of twin gates.new) }
    ensures keeps { Keeps (S.disk store.old) (S.disk store.new) }
    ensures passes { Passes Same (S.disk store.old) (S.disk store.new) }
    ensures does { Does (get_notes (first_of twin)) (S.disk store.old).seen (S.disk store.new).seen
        (W.trace watch.old) (W.trace watch.new) result }
{
    held_back(twin.get(store, sealer, gates, watch))
}

// What both registers tell: first whether the store is one, then the damage in the order of cells.
fn judge(generation: Register, epoch: Register) -> Result<Numbers, Fault>
    ensures value { (keys : Keys) (image : Image) → IsRegister keys 1 image generation
        → IsRegister keys 5 image epoch → AreRegisters keys image result }
    ensures faults { IfErr result IsRegistersFault }
    ensures own { IfErr result (λ refused. IsStoreFault refused → ⊥) }
    ensures numbers { IfOk result (λ numbers. IsNumber generation × IsNumber epoch) }
    ensures below { IsBelow generation → IsBelow epoch
        → IfOk result (λ numbers. (numbers.generation < 2 ^ 62) × (numbers.epoch < 2 ^ 62)) }
{
    match (generation, epoch) {
        (Register::Closed, _) => Err(Fault::NotStore),
        (_, Register::Closed) => Err(Fault::NotStore),
        (Register::Broken(damaged), Register::Number(_)) => Err(Fault::from(damaged)),
        (Register::Broken(damaged), Register::Broken(_)) => Err(Fault::from(damaged)),
        (_, Register::Broken(damaged)) => Err(Fault::from(damaged)),
        (Register::Number(generation), Register::Number(epoch)) => Ok(Numbers {
            generation,
            epoch,
        }),
    }
}

/// Reads all cells of both registers, 1 to 8 in their order, and then tells of them. Which gates
/// are open is told in `gates`. Nothing is written.
///
/// # Errors
/// The store failed, and its count of faults rose; or it is no store exactly where a register has
/// no open gate; or the first body under an open gate that breaks a rule is damaged, in the order
/// of cells: its tag, then its number, which is below `2^62`.
pub fn read_registers<S: Store, W: Watch>(
    store: &mut S,
    sealer: &Sealer,
    gates: &mut Gates,
    watch: &mut W,
) -> Result<Numbers, Fault>
    ensures serves { Serves IsStoreFault (S.disk store.old) (S.disk store.new) result }
    ensures faults { IfErr result IsRegistersFault }
    ensures value { (S.disk store.old).tells
        → AreRegisters sealer.now.keys (S.disk store.old).cells result }
    ensures below { IfOk result (λ numbers. (numbers.generation < 2 ^ 62)
        × (numbers.epoch < 2 ^ 62)) }
    ensures generation { (S.disk store.old).tells
        → OnOk result (GatesAre gates.new.generation 1 (S.disk store.old).cells) }
    ensures epoch { (S.disk store.old).tells
        → OnOk result (GatesAre gates.new.epoch 5 (S.disk store.old).cells) }
    // Whatever the store tells, each register has a gate that is known to be open.
    ensures some { OnOk result (HaveOpen gates.new) }
    ensures keeps { Keeps (S.disk store.old) (S.disk store.new) }
    ensures passes { Passes Same (S.disk store.old) (S.disk store.new) }
    ensures does { DoesReads registers_notes (S.disk store.old).seen (S.disk store.new).seen
        (W.trace watch.old) (W.trace watch.new) result }
{
    let generation = match read_register(Twin::GENERATION, store, sealer, gates, watch) {
        Ok(generation) => generation,
        Err(fault) => return Err(fault),
    };
    let epoch = match read_register(Twin::EPOCH, store, sealer, gates, watch) {
        Ok(epoch) => epoch,
        Err(fault) => return Err(fault),
    };
    judge(generation, epoch)
}
