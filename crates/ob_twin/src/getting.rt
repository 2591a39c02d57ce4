//! Reading a register.

ghost use Rattle.std.specs.Prelude.{◌≡◌, ◌⊎◌, ◌<◌, ◌≤◌, ◌+◌, ◌^◌, ◌++◌, ℕ, [], ◌∷◌, Some, Ok, Err, take, replicate, IfOk, IfSome, OnOk, OnErr, IfErr, is_ok};
ghost use Rattle.ob_base.specs.Causes.{HasCause};
ghost use Rattle.ob_base.specs.declared.fault.Check.TheVariants as check;
ghost use Rattle.ob_store.specs.Disk.{Image};
ghost use Rattle.ob_store.specs.Images.{Same, Shrinks, Passes};
ghost use Rattle.ob_store.specs.Calls.{Serves, IsFailed, IsStoreFault, Keeps, TellsOn};
ghost use Rattle.ob_store.specs.Told.{Does};
ghost use Rattle.ob_twin.specs.Bodies.{open_gate, number_of, IsWholeBody};
ghost use Rattle.ob_twin.specs.Register.{first_of, body_at, gate_at, StandsAt};
ghost use Rattle.ob_twin.specs.Reading.{IsTwinDamage, IsPlace, IsRead, IsGot, IsGetFault, greater};
ghost use Rattle.ob_twin.specs.Opening.{known_of, with_known, GatesAre, HasOpen};
ghost use Rattle.ob_twin.specs.Orders.{get_notes};
ghost use Rattle.ob_twin.specs.Got.{IsOkOr, IsGates, DoesReads};

use crate::bytes::{is_open, number_of};
use crate::known::set_known;
use crate::{Gates, Open, Stamper, Twin};
use ob_base::{Check, Damaged, Failed, Fault, NUMBER_LIMIT};
use ob_store::{Store, Watch, read_noted};

// The four cells of a register.
#[derive(Drop)]
struct Cells {
    body_zero: [u8; 128],
    gate_zero: [u8; 128],
    body_one: [u8; 128],
    gate_one: [u8; 128],
}

fn read_cells<S: Store, W: Watch>(
    store: &S,
    lane: &mut S::Lane,
    first: u64,
    cells: &mut Cells,
    watch: &mut W,
) -> Result<(), Failed>
    requires { first < 16 }
    ensures body_zero { (S.disk store.now).tells
        → OnOk result (cells.new.body_zero ≡ (S.disk store.now).cells (body_at first 0)) }
    ensures gate_zero { (S.disk store.now).tells
        → OnOk result (cells.new.gate_zero ≡ (S.disk store.now).cells (gate_at first 0)) }
    ensures body_one { (S.disk store.now).tells
        → OnOk result (cells.new.body_one ≡ (S.disk store.now).cells (body_at first 1)) }
    ensures gate_one { (S.disk store.now).tells
        → OnOk result (cells.new.gate_one ≡ (S.disk store.now).cells (gate_at first 1)) }
    ensures cause { HasCause (S.lane_faults lane.old) (S.lane_faults lane.new) result }
    ensures does { Does (get_notes first) (S.lane_seen lane.old) (S.lane_seen lane.new)
        (W.trace watch.old) (W.trace watch.new) result }
{
    match read_noted(store, lane, first, &mut cells.body_zero, watch) {
        Ok(()) => {}
        Err(Failed) => return Err(Failed),
    }
    match read_noted(store, lane, first + 1, &mut cells.gate_zero, watch) {
        Ok(()) => {}
        Err(Failed) => return Err(Failed),
    }
    match read_noted(store, lane, first + 2, &mut cells.body_one, watch) {
        Ok(()) => {}
        Err(Failed) => return Err(Failed),
    }
    read_noted(store, lane, first + 3, &mut cells.gate_one, watch)
}

// Through a lane of its own.
fn read_register<S: Store, W: Watch>(
    store: &mut S,
    first: u64,
    cells: &mut Cells,
    watch: &mut W,
) -> Result<(), Failed>
    requires { first < 16 }
    ensures serves { Serves IsFailed (S.disk store.old) (S.disk store.new) result }
    ensures keeps { Keeps (S.disk store.old) (S.disk store.new) }
    ensures crash { Shrinks (S.disk store.old) (S.disk store.new) }
    ensures passes { Passes Same (S.disk store.old) (S.disk store.new) }
    ensures body_zero { (S.disk store.old).tells
        → OnOk result (cells.new.body_zero ≡ (S.disk store.old).cells (body_at first 0)) }
    ensures gate_zero { (S.disk store.old).tells
        → OnOk result (cells.new.gate_zero ≡ (S.disk store.old).cells (gate_at first 0)) }
    ensures body_one { (S.disk store.old).tells
        → OnOk result (cells.new.body_one ≡ (S.disk store.old).cells (body_at first 1)) }
    ensures gate_one { (S.disk store.old).tells
        → OnOk result (cells.new.gate_one ≡ (S.disk store.old).cells (gate_at first 1)) }
    ensures does { Does (get_notes first) (S.disk store.old).seen (S.disk store.new).seen
        (W.trace watch.old) (W.trace watch.new) result }
{
    let mut lane = store.lane()?;
    let outcome = read_cells(store, &mut lane, first, cells, watch);
    store.absorb(lane);
    outcome
}

// The number of a place, where its gate is open.
fn number_in<T: Stamper>(
    stamper: &T,
    cell: u64,
    gate: &[u8; 128],
    body: &[u8; 128],
) -> Result<Option<u64>, Damaged>
    ensures { IsPlace (T.tag stamper.now) cell gate.now body.now result }
{
    if !is_open(gate) {
        return Ok(None);
    }
    stamper.unstamp(cell, body)?;
    let n = number_of(body);
    if n >= NUMBER_LIMIT {
        return Err(too_great(cell, body));
    }
    Ok(Some(n))
}

// The number of a body is too great.
fn too_great(cell: u64, body: &[u8; 128]) -> Damaged
    ensures { result
        ≡ record {
          cell = cell;
          check = check.Form;
          kept = take 8 body.now ++ replicate 8 0;
          computed = replicate 16 0;
        } }
{
    let mut kept = [0; 16];
    kept[..8].copy_from_slice(&body[..8]);
    Damaged {
        cell,
        check: Check::Form,
        kept,
        computed: [0; 16],
    }
}

// The greater of two numbers, where there are two.
fn greater(a: Option<u64>, b: Option<u64>) -> Option<u64>
    ensures { result ≡ greater a b }
{
    match (a, b) {
        (Some(a), Some(b)) => Some(a.max(b)),
        (None, b) => b,
        (a, None) => a,
    }
}

// What the four cells tell.
fn judge<T: Stamper>(stamper: &T, first: u64, cells: &Cells) -> Result<Option<u64>, Damaged>
    requires { first < 16 }
    ensures read { (image : Image) → cells.now.body_zero ≡ image (body_at first 0)
        → cells.now.gate_zero ≡ image (gate_at first 0)
        → cells.now.body_one ≡ image (body_at first 1)
        → cells.now.gate_one ≡ image (gate_at first 1)
        → IsRead (T.tag stamper.now) first image result }
    ensures below { IfOk result (λ number. IfSome number (λ n. n < 2 ^ 62)) }
    ensures some { IfOk result (λ number. IfSome number (λ n. (cells.now.gate_zero ≡ open_gate)
        ⊎ (cells.now.gate_one ≡ open_gate))) }
{
    let zero = match number_in(stamper, first, &cells.gate_zero, &cells.body_zero) {
        Ok(zero) => zero,
        Err(damaged) => return Err(damaged),
    };
    let one = match number_in(stamper, first + 2, &cells.gate_one, &cells.body_one) {
        Ok(one) => one,
        Err(damaged) => return Err(damaged),
    };
    Ok(greater(zero, one))
}

impl Twin {
    /// The number that counts, or None exactly where no gate is open. Which gates are open is told
    /// in `gates`.
    ///
    /// # Errors
    /// The store failed, and its count of faults rose; or the first body under an open gate that
    /// breaks a rule is damaged: its tag, or its number, which is below `2^62`.
    pub fn get<S: Store, T: Stamper, W: Watch>(
        self,
        store: &mut S,
        stamper: &T,
        gates: &mut Gates,
        watch: &mut W,
    ) -> Result<Option<u64>, Fault>
        ensures serves { Serves IsStoreFault (S.disk store.old) (S.disk store.new) result }
        ensures faults { IfErr result IsGetFault }
        ensures value { (S.disk store.old).tells
            → IsGot (T.tag stamper.now) (first_of self) (S.disk store.old).cells result }
        ensures below { IfOk result (λ number. IfSome number (λ n. n < 2 ^ 62)) }
        // A register that stands at a number gives it.
        ensures stands { (n : ℕ) → (S.disk store.old).tells
            → StandsAt (T.tag stamper.now) (first_of self) (S.disk store.old).cells n
            → IsOkOr (Some n) IsStoreFault result }
        ensures gates { (S.disk store.old).tells
            → IsGates self gates.old gates.new (S.disk store.old).cells result }
        // Whatever the store tells, a number stands under a gate that is known to be open, and of
        // the other register's gates nothing is told.
        ensures some { IfOk result
            (λ number. IfSome number (λ n. HasOpen (known_of self gates.new))) }
        ensures other { gates.new ≡ with_known self gates.old (known_of self gates.new) }
        ensures keeps { Keeps (S.disk store.old) (S.disk store.new) }
        ensures crash { Shrinks (S.disk store.old) (S.disk store.new) }
        // A crash at any moment leaves what it might have left before.
        ensures passes { Passes Same (S.disk store.old) (S.disk store.new) }
        ensures does { DoesReads (get_notes (first_of self)) (S.disk store.old).seen
            (S.disk store.new).seen (W.trace watch.old) (W.trace watch.new) result }
    {
        let first = self.first();
        let mut cells = Cells {
            body_zero: [0; 128],
            gate_zero: [0; 128],
            body_one: [0; 128],
            gate_one: [0; 128],
        };
        match read_register(store, first, &mut cells, watch) {
            Ok(()) => {}
            Err(Failed) => return Err(Fault::StoreFault { unsure: None }),
        }
        let open = Open {
            zero: is_open(&cells.gate_zero),
            one: is_open(&cells.gate_one),
        };
        set_known(self, gates, open);
        match judge(stamper, first, &cells) {
            Ok(number) => Ok(number),
            Err(damaged) => Err(Fault::from(damaged)),
        }
    }
}
