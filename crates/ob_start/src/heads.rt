//! The head of a store.

ghost use Rattle.std.specs.Prelude.{◌≡◌, ◌↔◌, ◌≤◌, ◌+◌, ◌*◌, ◌^◌, [], ◌∷◌, IsTrue, IfErr, OnOk, OnErr, length, take, ◌++◌};
ghost use Rattle.std.specs.List.{flat_map};
ghost use Rattle.std.specs.Int.{w32, to_le_bytes};
ghost use Rattle.ob_base.specs.LittleEndian.{with_part};
ghost use Rattle.ob_store.specs.declared.watch.Note.TheVariants as note;
ghost use Rattle.ob_store.specs.Images.{Same, Passes};
ghost use Rattle.ob_store.specs.Calls.{Serves, IsFailed, IsStoreFault, Keeps};
ghost use Rattle.ob_store.specs.Told.{Does};
ghost use Rattle.ob_twin.specs.Got.{DoesReads};
ghost use Rattle.ob_start.specs.Heads.{head_mark, head_plain, head_number_at, field_place, IsHeadRead, IsHeadFault};

use ob_base::{Failed, Fault, Field, Params, set_u32, u32_at};
use ob_cells::{bad_number, put};
use ob_seal::{Keys, Sealer};
use ob_store::{Store, Watch, read_noted};
use ob_twin::Stamper;

// What a head of a version begins with.
#[tactic(auto, unfolding(crate::specs::Heads::head_mark))]
fn mark(version: u32) -> [u8; 12]
    ensures { result ≡ head_mark version }
{
    let mut bytes = *b"OBLADIST\0\0\0\0";
    bytes[8..].copy_from_slice(&version.to_le_bytes());
    bytes
}

// Writes numbers, of 4 bytes each, behind the mark.
fn put_numbers(plain: &mut [u8], numbers: &[u32])
    requires { 12 + 4 * length numbers.now ≤ length plain.old }
    ensures { plain.new ≡ with_part plain.old 12 (flat_map (λ n. to_le_bytes w32 n) numbers.now) }
{
    for (i, number) in numbers.iter().enumerate() {
        set_u32(plain, 12 + 4 * i, *number);
    }
}

/// The cell of a head: `OBLADIST`, the version, the nine parameters of 4 bytes each, zeros, the
/// tag.
pub fn head_cell<T: Stamper>(stamper: &T, version: u32, params: &Params) -> [u8; 128]
    ensures { result
        ≡ head_plain version params.now ++ T.tag stamper.now 0 (head_plain version params.now) }
{
    let mut plain = [0; 112];
    put(&mut plain, 0, &mark(version));
    put_numbers(
        &mut plain,
        &[
            params.keys,
            params.levels,
            params.real,
            params.dummies,
            params.batches,
            params.places,
            params.writes,
            params.evictions,
            params.room,
        ],
    );
    stamper.stamp(0, &plain)
}

// Whether a cell begins as a head of this version does.
fn is_marked(bytes: &[u8; 128], version: u32) -> bool
    ensures { IsTrue result ↔ take 12 bytes.now ≡ head_mark version }
{
    bytes[..12] == mark(version)[..]
}

// The number at one of the nine places of a head.
fn number_at(bytes: &[u8; 128], place: usize) -> u32
    requires { place ≤ 8 }
    ensures { result ≡ head_number_at bytes.now place }
{
    u32_at(bytes, 12 + 4 * place)
}

// The place of a parameter in the head.
fn place_of(field: Field) -> usize
    ensures place { result ≡ field_place field }
    ensures few { result ≤ 8 }
{
    match field {
        Field::L => 1,
        Field::Z => 2,
        Field::S => 3,
        Field::R => 4,
        Field::BR => 5,
        Field::BW => 6,
        Field::E => 7,
        Field::T => 8,
        _ => 0,
    }
}

// The parameters that a head spells.
fn open_head(sealer: &Sealer, version: u32, bytes: &[u8; 128]) -> Result<Params, Fault>
    ensures read { IsHeadRead sealer.now.keys version bytes.now result }
    ensures faults { IfErr result IsHeadFault }
    ensures own { IfErr result (λ fault. IsStoreFault fault → ⊥) }
{
    if !is_marked(bytes, version) {
        return Err(Fault::NotStore);
    }
    match Stamper::unstamp(sealer, 0, bytes) {
        Ok(_) => {}
        Err(damaged) => return Err(Fault::from(damaged)),
    }
    let read = Params::new(
        number_at(bytes, 0),
        number_at(bytes, 1),
        number_at(bytes, 2),
        number_at(bytes, 3),
        number_at(bytes, 4),
        number_at(bytes, 5),
        number_at(bytes, 6),
        number_at(bytes, 7),
        number_at(bytes, 8),
    );
    match read {
        Ok(params) => Ok(params),
        Err(field) => {
            let number = number_at(bytes, place_of(field));
            Err(Fault::from(bad_number(0, number as u64, 1)))
        }
    }
}

// Reads a cell through a lane of its own.
fn read_cell<S: Store, W: Watch>(
    store: &mut S,
    cell: u64,
    bytes: &mut [u8; 128],
    watch: &mut W,
) -> Result<(), Failed>
    ensures serves { Serves IsFailed (S.disk store.old) (S.disk store.new) result }
    ensures bytes { (S.disk store.old).tells
        → OnOk result (bytes.new ≡ (S.disk store.old).cells cell) }
    ensures keeps { Keeps (S.disk store.old) (S.disk store.new) }
    ensures passes { Passes Same (S.disk store.old) (S.disk store.new) }
    ensures does { Does (note.Read cell ∷ []) (S.disk store.old).seen (S.disk store.new).seen
        (W.trace watch.old) (W.trace watch.new) result }
{
    let mut lane = store.lane()?;
    let outcome = read_noted(store, &mut lane, cell, bytes, watch);
    store.absorb(lane);
    outcome
}

/// Reads the head of a store of this version: its parameters. Cell 0 is read, and nothing written.
///
/// # Errors
/// The store failed, and its count of faults rose; or, in this order, it is no store exactly where
/// cell 0 doesn't begin with the mark of this version; the head is damaged where its tag isn't
/// that of its bytes; or where a parameter is out of its range, and then the first one is told.
pub fn read_head<S: Store, W: Watch>(
    store: &mut S,
    keys: &Keys,
    version: u32,
    watch: &mut W,
) -> Result<Params, Fault>
    ensures serves { Serves IsStoreFault (S.disk store.old) (S.disk store.new) result }
    ensures faults { IfErr result IsHeadFault }
    ensures value { (S.disk store.old).tells
        → IsHeadRead keys.now version ((S.disk store.old).cells 0) result }
    ensures keeps { Keeps (S.disk store.old) (S.disk store.new) }
    // A crash at any moment leaves what it might have left before.
    ensures passes { Passes Same (S.disk store.old) (S.disk store.new) }
    ensures does { DoesReads (note.Read 0 ∷ []) (S.disk store.old).seen (S.disk store.new).seen
        (W.trace watch.old) (W.trace watch.new) result }
{
    let mut bytes = [0; 128];
    match read_cell(store, 0, &mut bytes, watch) {
        Ok(()) => open_head(&Sealer::new(keys, 0), version, &bytes),
        Err(Failed) => Err(Fault::StoreFault { unsure: None }),
    }
}
