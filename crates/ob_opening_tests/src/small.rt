//! The store of these tests: its parameters, its keys, its cells, and what is told of it.

ghost use Rattle.std.specs.Prelude.{◌≡◌};
ghost use Rattle.ob_mem.specs.Memory.{disk_of_store};

use hex::FromHex;
use ob_base::{Check, Fault, Params};
use ob_mem::{Fail, MemStore};
use ob_seal::Keys;
use ob_store::Store;
use std::alloc::Global;
use std::process::Abort;

/// The cells that an opening reads of a store whose log has no record, behind the head, in order.
pub const READ: [u64; 23] = [
    1, 2, 3, 4, 5, 6, 7, 8, 17, 18, 19, 20, 21, 22, 23, 24, 25, 26, 27, 13, 14, 15, 16,
];

/// How a store is answered, and of which cell: it is found at a generation, or opened with one and
/// with batches that are left, in both cases at epoch 0.
#[derive(Clone, Copy, PartialEq)]
pub enum Told {
    Found(u64),
    Open(u64, u32),
    NotStore,
    Tag(u64),
    Form(u64),
    Worn(u64),
    StoreFault,
    Other,
}

/// What this fault tells.
pub fn told_by(fault: Fault) -> Told {
    match fault {
        Fault::NotStore => Told::NotStore,
        Fault::Damaged { cell, check, .. } if check == Check::Tag => Told::Tag(cell),
        Fault::Damaged { cell, check, .. } if check == Check::Form => Told::Form(cell),
        Fault::Worn { number } => Told::Worn(number),
        Fault::StoreFault { unsure: None } => Told::StoreFault,
        _ => Told::Other,
    }
}

/// A store of 8 keys, of 109 cells.
pub fn small_store(rt: &impl Abort) -> Params {
    Params::new(8, 2, 2, 3, 2, 2, 2, 2, 8).expect(rt, "parameters")
}

/// The keys of the bytes 0 to 95.
pub fn test_keys() -> Keys {
    let mut bytes = [0; 96];
    for i in 0..96 {
        bytes[i] = i as u8;
    }
    Keys::from_bytes(&bytes)
}

/// 109 cells of zeros, where these calls fail.
pub fn blank_store(rt: &impl Abort, alloc: Global, fails: &[Fail]) -> MemStore
    ensures { (disk_of_store result).out ≡ 0 }
{
    let fails = fails.to_vec(alloc).expect(rt, "memory");
    MemStore::new(alloc, 109, fails).expect(rt, "memory")
}

/// Writes the bytes of a cell's digits: the 256 that begin at this place.
pub fn write_digits(rt: &impl Abort, store: &mut MemStore, cell: u64, digits: &[u8], place: usize)
    requires { (disk_of_store store.old).out ≡ 0 }
    ensures { (disk_of_store store.new).out ≡ 0 }
{
    assert!(rt; place < digits.len() && digits.len() - place >= 256);
    let own = &digits[place..place + 256];
    let bytes = <[u8; 128] as FromHex>::from_hex(own)
        .ok()
        .expect(rt, "digits");
    assert!(rt; store.write(cell, &bytes).is_ok());
}

/// Changes a bit of a cell.
pub fn flip(rt: &impl Abort, store: &mut MemStore, cell: u64)
    requires { (disk_of_store store.old).out ≡ 0 }
    ensures { (disk_of_store store.new).out ≡ 0 }
{
    let mut lane = store.lane().expect(rt, "a lane");
    let mut bytes = [0; 128];
    assert!(rt; store.read(&mut lane, cell, &mut bytes).is_ok());
    store.absorb(lane);
    bytes[40] ^= 4;
    assert!(rt; store.write(cell, &bytes).is_ok());
}
