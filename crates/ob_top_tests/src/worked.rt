//! Runs over a store that another implementation made.

ghost use Rattle.std.specs.Prelude.{◌≡◌};
ghost use Rattle.ob_mem.specs.Memory.{disk_of_store};

use crate::playing::{go_on, insist};
use crate::two_epochs::cells;
use hex::FromHex;
use ob_store::Store;
use ob_top_calls::{CELLS, Noting, let_noting_go, noted_blank};
use std::process::Abort;

// Writes the bytes of a cell's digits, of which each cell has 256.
fn write_digits<R: Abort>(rt: &R, store: &mut Noting, cell: usize)
    requires { (disk_of_store store.old.store).out ≡ 0 }
    ensures { (disk_of_store store.new.store).out ≡ 0 }
{
    let digits = cells();
    assert!(rt; cell < CELLS && digits.len() == 256 * CELLS);
    let own = &digits[256 * cell..256 * cell + 256];
    let bytes = <[u8; 128] as FromHex>::from_hex(own)
        .ok()
        .expect(rt, "digits");
    insist(
        rt,
        store.store.write(cell as u64, &bytes).is_ok(),
        "a write",
    );
}

// The store after two epochs.
fn after_two_epochs<R: AllocGlobal + Abort>(rt: &R) -> Noting
    ensures { (disk_of_store result.store).out ≡ 0 }
{
    let mut store = noted_blank(rt.alloc(), CELLS, &[]).expect(rt, "memory");
    for cell in 0..CELLS {
        write_digits(rt, &mut store, cell);
    }
    store
}

// Two lanes go on with it, and the next run with what they left.
const GOES_ON: &str = "\
    run S K --lanes 2 < client 1/begin/get 5/put 5 there/commit/begin/get 5/commit -> \
    0 epoch 3/txn 1 client 1 committed/get 5 = hi/put 5 there/\
    epoch 4/txn 1 client 1 committed/get 5 = there/\n\
    crash\n\
    run S K < client 1/begin/get 5/get 4/commit -> \
    0 epoch 5/txn 1 client 1 committed/get 5 = there/get 4 absent/";

#[test]
fn a_run_goes_on_with_another_implementations_store(rt: HostRuntime) {
    let mut store = after_two_epochs(&rt);
    go_on(&rt, &mut store, GOES_ON);
    let_noting_go(store);
}
