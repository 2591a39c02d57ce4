//! Ranks, and bytes of buckets that were made elsewhere.

ghost use Rattle.std.specs.Prelude.{◌≡◌, length};
ghost use Rattle.ob_base.specs.Layout.{meta_len};

use crate::params::small;
use ob_base::Params;
use ob_tables::{Meta, Metas, ranks};

#[test]
fn slots_by_word_then_index(rt: HostRuntime) {
    let mut out = [0; 5];
    ranks(&[7, 3, 9, 3, 1], &mut out);
    assert!(rt; out == [3, 1, 4, 2, 0]);
}

// Home 1, generation 5, base 7, key 3 at index 0, slots 3 1 4 2 0, indexes 2 and 4 shown.
const BYTES: [u8; 35] = [
    1, 5, 0, 0, 0, 0, 0, 0, 0, 7, 0, 0, 0, 0, 0, 0, 0, 3, 0, 0, 0, 255, 255, 255, 255, 3, 0, 1, 0,
    4, 1, 2, 0, 0, 1,
];

#[test]
fn bytes_are_read_and_written(rt: HostRuntime) {
    let p = small().expect(&rt, "parameters in range");
    let meta = Meta::decode(&p, &BYTES).expect(&rt, "bytes of a bucket");
    assert!(rt; (meta.home(), meta.generation(), meta.base()) == (1, 5, 7));
    assert!(rt; meta.keys() == [Some(3), None].as_slice());
    let told = [
        Some(meta.slot(2)),
        meta.live_index(3),
        meta.live_index(4),
        meta.next_dummy(),
    ];
    assert!(rt; told == [Some(4), Some(0), None, Some(3)]);
    let mut out = [0; 35];
    meta.encode(&mut out);
    assert!(rt; out == BYTES);
}

// A byte of a place, and whether it is refused there.
static CHANGES: [(usize, u8, bool); 8] = [
    // Home 2; slot 5 of 5; slot 3 twice; a mark of 2; a key's index shown; three shown.
    (0, 2, true),
    (25, 5, true),
    (27, 3, true),
    (28, 2, true),
    (26, 1, true),
    (28, 1, true),
    (0, 0, false),
    (17, 9, false),
];

fn is_refused(p: &Params, at: usize, byte: u8) -> bool
    requires { meta_len p.now ≡ 35 }
{
    let mut bytes = BYTES;
    if at < 35 {
        bytes[at] = byte;
    }
    Meta::decode(p, &bytes).is_none()
}

#[test]
fn broken_fields_are_refused(rt: HostRuntime) {
    let p = small().expect(&rt, "parameters in range");
    for &(at, byte, refused) in &CHANGES {
        assert!(rt; is_refused(&p, at, byte) == refused);
    }
}

// The next dummy of a bucket, behind a mark, and behind a filling; where a key lies then, the slot
// of its last index, and where the key lies when it was cleared.
fn told_of(meta: &mut Meta) -> [Option<u8>; 6]
    requires keys { length meta.old.keys ≡ 2 }
    requires ranks { length meta.old.ranks ≡ 5 }
    requires used { length meta.old.used ≡ 5 }
{
    let blank = meta.next_dummy();
    meta.mark_used(2);
    let marked = meta.next_dummy();
    meta.fill(1, 5, 7, &[3], &[7, 3, 9, 3, 1]);
    let told = [meta.next_dummy(), meta.live_index(3), Some(meta.slot(4))];
    meta.clear_key(0);
    [blank, marked, told[0], told[1], told[2], meta.live_index(3)]
}

#[test]
fn versions_begin_with_nothing_shown(rt: HostRuntime) {
    let p = small().expect(&rt, "parameters in range");
    let mut metas = Metas::new(rt.alloc(), &p).expect(&rt, "memory");
    let told = told_of(metas.get_mut(6));
    assert!(rt; told == [Some(2), Some(3), Some(2), Some(0), Some(0), None]);
    assert!(rt; metas.get(6).used().len() == 5 && metas.get(5).home() == 0);
}

#[test]
fn lifted_buckets_are_known(rt: HostRuntime) {
    let p = small().expect(&rt, "parameters in range");
    let mut metas = Metas::new(rt.alloc(), &p).expect(&rt, "memory");
    metas.lift(6);
    metas.push_order(6);
    assert!(rt; metas.is_lifted(6) && !metas.is_lifted(5) && metas.order() == [6].as_slice());
    metas.clear_lifted();
    metas.clear_order();
    assert!(rt; !metas.is_lifted(6) && metas.order().is_empty());
}
