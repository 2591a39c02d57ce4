//! Seals, stamps and pads against those made elsewhere, changed cells, and keys as text.

ghost use Rattle.std.specs.Prelude.{◌≡◌, ◌+◌, ◌<◌, ◌^◌};

use crate::shared::{damaged, is_damage, spelled, test_keys, test_sealer};
use ob_base::{Check, Damaged, Fault};
use ob_seal::{Keys, Opened, SealRun, Sealer};

// Plain bytes.
#[derive(Clone, Copy)]
enum Plain {
    // This byte throughout.
    Same(u8),
    // This byte, and zeros behind it.
    Front(u8),
    // The numbers from 0 on.
    Rising,
    // The numbers from 96 down.
    Falling,
}

fn byte_of(plain: Plain, i: usize) -> u8 {
    match plain {
        Plain::Same(byte) => byte,
        Plain::Front(byte) => { if i == 0 { byte } else { 0 } }
        Plain::Rising => (i % 256) as u8,
        Plain::Falling => (96_usize.saturating_sub(i) % 256) as u8,
    }
}

fn bytes_of<const N: usize>(plain: Plain) -> [u8; N] {
    let mut bytes = [0; N];
    for i in 0..N {
        bytes[i] = byte_of(plain, i);
    }
    bytes
}

// ---- sealed cells

// A cell under the keys of the bytes 0 to 95: its number, the generation and the number of its
// seal, what it holds, and its bytes.
struct Sealed(u64, u64, u64, Plain, [u128; 8]);

// They were made with another SHA-256 and a plain ChaCha20.
const SEALED: &[Sealed] = &[
    Sealed(
        13,
        2,
        0,
        Plain::Same(0),
        [
            0x02000000000000000000000000000000,
            0x54b275d14c65d8174ac3a499cf3e8406,
            0xa93cc77ac646cbca744fdf1876ad1a39,
            0xc2f88e38d3a5f4c68837941559488324,
            0x5ac338934071cb6eefcfbdb4235499d2,
            0xa9a3fe55e7eaac6ecb4f3f70ccce61b5,
            0xc490ac2b84b34fe1bda721d1cda42cf5,
            0xe49a89fae014d21d3762f0eb18e57faa,
        ],
    ),
    Sealed(
        15,
        2,
        1,
        Plain::Rising,
        [
            0x02000000000000000100000000000000,
            0x901858b47878ee5c29e09b83edc9882a,
            0x51c87fb1d08637aef30bd648a15436c7,
            0x30606f90b05c1196550757d39fc518e1,
            0xcc3e90fc8352d23a15fa094f35b40812,
            0x319f9e8f97ba853604a7f5856aeb5a3c,
            0x7eee2d62fcbade688b4d58dc1a1f6ce3,
            0x58a2b0285ae518cd10b47e920db3f2a4,
        ],
    ),
    Sealed(
        4294967295,
        1,
        7,
        Plain::Same(0xff),
        [
            0x01000000000000000700000000000000,
            0x79362cb8af093ab664d3c53194737c9e,
            0xfd125d91fdc55e4ee8d378a16e52050e,
            0xfe539d1e31ce91d555c39869360acf1d,
            0x8eed6f073f1370ed75430e5e6dfb2f53,
            0x4a81ff845c9c036ebe313e5bdfa0fe7f,
            0x5fdd92d1e3541ff69cae9eac1bd7d758,
            0x763646916d08cbe46628fa43eee98296,
        ],
    ),
    Sealed(
        39,
        4611686018427387903,
        4611686018427387903,
        Plain::Falling,
        [
            0xffffffffffffff3fffffffffffffff3f,
            0x869ae4e4b43cadda53eaba486a857b5e,
            0xc98d7d637dfb98c567b3ca5011c8b22e,
            0x973bb3b2894b67a1a5267634fda54928,
            0x7436ac06f80b89fb5ad662f1bad9a38c,
            0x2e7f3aa4cc7a71f1376d2ad6641a7b65,
            0x05b61732628fc1a2bbd60e7befd6f74d,
            0x8479c4526787ec059c4dbef4de54dcb1,
        ],
    ),
    Sealed(
        7,
        1,
        4294967299,
        Plain::Same(1),
        [
            0x01000000000000000300000001000000,
            0xeea61b2b05a41481cb7de8f069809226,
            0xc2eaa09079df532471cb269342835dac,
            0x0a31a688e5ebede5c7dc345252b14b49,
            0xd04a9f03d606d19aa6e9be2a72f6354f,
            0x9ea60bc30c7f184b440995ac9b367309,
            0x0c1e141cb91d9860e95cb9b795bdbe44,
            0xc5df6f69eaa405e01032f5e0714de293,
        ],
    ),
];

// Whether a cell opens, whatever is expected of its seal.
fn opens_so(row: &Sealed) -> bool {
    let Sealed(cell, generation, number, plain, words) = row;
    let sealer = test_sealer(9);
    let bytes = spelled(words);
    let wanted = Some(Opened {
        generation: *generation,
        number: *number,
        plain: bytes_of(*plain),
    });
    sealer
        .unseal(*cell, Some((*generation, *number)), &bytes)
        .ok()
        == wanted
        && sealer.unseal(*cell, None, &bytes).ok() == wanted
}

#[test]
fn cells_sealed_elsewhere_open(rt: HostRuntime) {
    for row in SEALED {
        assert!(rt; opens_so(row));
    }
}

// Whether a cell gets these bytes, under the sealer's next number.
fn seals_so(sealer: &mut Sealer, row: &Sealed) -> bool {
    let Sealed(cell, generation, number, plain, words) = row;
    let is_next = sealer.next() == (*generation, *number);
    is_next && sealer.seal(*cell, &bytes_of(*plain)).ok() == Some(spelled(words))
}

#[test]
fn sealed_cells_are_as_made_elsewhere(rt: HostRuntime) {
    let mut sealer = test_sealer(2);
    assert!(rt; seals_so(&mut sealer, &SEALED[0]));
    assert!(rt; seals_so(&mut sealer, &SEALED[1]));
    assert!(rt; sealer.next() == (2, 2));
}

// Whether a cell gets these bytes under a given number, which isn't taken.
fn seals_at(row: &Sealed) -> bool {
    let Sealed(cell, generation, number, plain, words) = row;
    if *number >= 1 << 62 {
        return false;
    }
    let sealer = test_sealer(*generation);
    let bytes = sealer.seal_at(*cell, *number, &bytes_of(*plain));
    bytes == spelled(words) && sealer.next() == (*generation, 0)
}

#[test]
fn a_given_number_gives_its_bytes(rt: HostRuntime) {
    for row in SEALED {
        assert!(rt; seals_at(row));
    }
}

// Whether a cell gets these bytes, under a run's next number.
fn runs_so(run: &mut SealRun, row: &Sealed) -> bool
    requires { run.old.next < 2 ^ 62 }
    ensures { run.new ≡ record run.old { next = run.old.next + 1 } }
{
    let Sealed(cell, _, _, plain, words) = row;
    run.seal(*cell, &bytes_of(*plain)) == spelled(words)
}

#[test]
fn a_run_of_seals_gives_the_bytes_of_each(rt: HostRuntime) {
    let sealer = test_sealer(2);
    let mut run = sealer.run_from(0);
    assert!(rt; runs_so(&mut run, &SEALED[0]));
    assert!(rt; runs_so(&mut run, &SEALED[1]));
    // The third pad's words are made in two parts.
    assert!(rt; run.seal(41, &[7; 96]) == sealer.seal_at(41, 2, &[7; 96]));
    assert!(rt; sealer.next() == (2, 0));
}

#[test]
fn a_taken_number_is_gone(rt: HostRuntime) {
    let mut sealer = test_sealer(2);
    assert!(rt; sealer.next().1 < 9);
    assert!(rt; sealer.take() == 0 && sealer.next() == (2, 1));
    assert!(rt; sealer.seal(41, &[7; 96]).is_ok() && sealer.next() == (2, 2));
    assert!(rt; sealer.next().1 < 9);
    assert!(rt; sealer.take() == 2);
}

// ---- stamped cells

// Whether a cell is stamped with this tag, and opens.
fn stamps_so(sealer: &Sealer, cell: u64, plain: Plain, tag: u128) -> bool {
    let plain = bytes_of(plain);
    let stamped = sealer.stamp(cell, &plain);
    stamped[112..] == tag.to_be_bytes()[..] && sealer.unstamp(cell, &stamped).ok() == Some(plain)
}

// Cells with their plain bytes, and the tags that another SHA-256 made.
const STAMPED: &[(u64, Plain, u128)] = &[
    (0, Plain::Same(0), 0x998c7ceb7cfb16e8462f2820ea4932a7),
    (5, Plain::Front(3), 0xee64896f1cea2cf8a63f94f29b87c350),
    (1, Plain::Rising, 0x2f83e5551073bf023f322d99faf08bdd),
];

// The last tag is the front of the digest of 152 bytes `a`, which was made with OpenSSL.
#[test]
fn stamped_cells_are_as_made_elsewhere(rt: HostRuntime) {
    for (cell, plain, tag) in STAMPED {
        assert!(rt; stamps_so(&test_sealer(1), *cell, *plain, *tag));
    }
    let keys = Keys {
        tag: [b'a'; 32],
        ..test_keys()
    };
    let tag = 0xe03013400c0bddd83e6d7d14ce28c3ec;
    assert!(rt;
        stamps_so(
            &Sealer::new(&keys, 1),
            0x6161616161616161,
            Plain::Same(b'a'),
            tag
        )
    );
}

// ---- pads

// What a cell of zeros opens as, which is the pad of its seal.
fn pad_of(keys: &Keys, generation: u64, number: u64, tag: u128) -> Option<[u8; 96]> {
    let mut bytes = [0; 128];
    bytes[..8].copy_from_slice(&generation.to_le_bytes());
    bytes[8..16].copy_from_slice(&number.to_le_bytes());
    bytes[112..].copy_from_slice(&tag.to_be_bytes());
    match Sealer::new(keys, 0).unseal(0, None, &bytes) {
        Ok(opened) => Some(opened.plain),
        Err(_) => None,
    }
}

// The generation and the number of a seal, the tag of cell 0 with zeros behind them, and 16 bytes
// of the pad with their place.
struct Pad(u64, u64, u128, usize, u128);

fn is_padded(keys: &Keys, row: &Pad) -> bool {
    let &Pad(generation, number, tag, at, words) = row;
    match pad_of(keys, generation, number, tag) {
        Some(pad) => at <= 80 && pad[at..at + 16] == words.to_be_bytes()[..],
        None => false,
    }
}

// The first two keystreams of RFC 8439, appendix A.1, are the first blocks of stream 0; the fifth
// one there has the nonce 2, the high half of a stream number. The tags were made with another
// SHA-256.
const UNDER_ZEROS: &[Pad] = &[
    Pad(
        0,
        0,
        0x998c7ceb7cfb16e8462f2820ea4932a7,
        0,
        0x76b8e0ada0f13d90405d6ae55386bd28,
    ),
    Pad(
        0,
        0,
        0x998c7ceb7cfb16e8462f2820ea4932a7,
        16,
        0xbdd219b8a08ded1aa836efcc8b770dc7,
    ),
    Pad(
        0,
        0,
        0x998c7ceb7cfb16e8462f2820ea4932a7,
        32,
        0xda41597c5157488d7724e03fb8d84a37,
    ),
    Pad(
        0,
        0,
        0x998c7ceb7cfb16e8462f2820ea4932a7,
        48,
        0x6a43b8f41518a11cc387b669b2ee6586,
    ),
    Pad(
        0,
        0,
        0x998c7ceb7cfb16e8462f2820ea4932a7,
        64,
        0x9f07e7be5551387a98ba977c732d080d,
    ),
    Pad(
        0,
        0,
        0x998c7ceb7cfb16e8462f2820ea4932a7,
        80,
        0xcb0f29a048e3656912c6533e32ee7aed,
    ),
    Pad(
        0,
        1,
        0x284f7f94ddef510774b40466106829c4,
        0,
        0x29b721769ce64e43d57133b074d839d5,
    ),
    Pad(
        0,
        1,
        0x284f7f94ddef510774b40466106829c4,
        16,
        0x31ed1f28510afb45ace10a1f4b794d6f,
    ),
    Pad(
        0x0200_0000_0000_0000,
        0,
        0xcb6e7fad4e042b6b35b18a1530db2914,
        0,
        0xc2c64d378cd536374ae204b9ef933fcd,
    ),
    Pad(
        0x0200_0000_0000_0000,
        0,
        0xcb6e7fad4e042b6b35b18a1530db2914,
        16,
        0x1a8b2288b3dfa49672ab765b54ee27c7,
    ),
    Pad(
        0x0200_0000_0000_0000,
        0,
        0xcb6e7fad4e042b6b35b18a1530db2914,
        32,
        0x8a970e0e955c14f3a88e741b97c286f7,
    ),
    Pad(
        0x0200_0000_0000_0000,
        0,
        0xcb6e7fad4e042b6b35b18a1530db2914,
        48,
        0x5f8fc299e8148362fa198a39531bed6d,
    ),
];

// The block of RFC 8439, section 2.3.2: as a 64-bit counter and stream number, the counter is
// 0x0900000000000001, whose block begins at word 16 of a pad, and the stream 0x4a000000.
const UNDER_RISING: &[Pad] = &[
    Pad(
        0x4a00_0000,
        432345564227567616,
        0x63756aca6a32b6e13b5ee0cd3e9cc2a5,
        64,
        0x10f1e7e4d13b5915500fdd1fa32071c4,
    ),
    Pad(
        0x4a00_0000,
        432345564227567616,
        0x63756aca6a32b6e13b5ee0cd3e9cc2a5,
        80,
        0xc7d1f4c733c068030422aa9ac3d46c4e,
    ),
    Pad(
        0x4a00_0000,
        432345564227567617,
        0x31be8acd7a44a04a4e04a8cc816fac84,
        0,
        0xd2826446079faa0914c2d705d98b02a2,
    ),
    Pad(
        0x4a00_0000,
        432345564227567617,
        0x31be8acd7a44a04a4e04a8cc816fac84,
        16,
        0xb5129cd1de164eb9cbd083e8a2503c4e,
    ),
];

#[test]
fn pads_are_keystreams_of_the_standard(rt: HostRuntime) {
    let keys = test_keys();
    let zeros = Keys {
        seal: [0; 32],
        ..keys
    };
    for row in UNDER_ZEROS {
        assert!(rt; is_padded(&zeros, row));
    }
    for row in UNDER_RISING {
        assert!(rt; is_padded(&keys, row));
    }
}

// ---- refusals

// Why a cell isn't opened.
fn refusal(opened: Result<Opened, Damaged>) -> Option<Fault> {
    match opened {
        Ok(_) => None,
        Err(damaged) => Some(Fault::from(damaged)),
    }
}

// Whether a cell isn't opened, because of its tag.
fn has_other_tag(
    sealer: &Sealer,
    cell: u64,
    expected: Option<(u64, u64)>,
    bytes: &[u8; 128],
) -> bool {
    match refusal(sealer.unseal(cell, expected, bytes)) {
        Some(fault) => is_damage(fault, cell, Check::Tag),
        None => false,
    }
}

#[test]
fn changed_cells_are_damaged(rt: HostRuntime) {
    let mut sealer = test_sealer(2);
    let mut cell = sealer.seal(41, &[7; 96]).ok().expect(&rt, "a seal");
    let wrong = damaged(41, Check::Seal, (2, 0), (2, 1));
    assert!(rt; refusal(sealer.unseal(41, Some((2, 1)), &cell)) == Some(wrong));
    assert!(rt; refusal(sealer.unseal(41, Some((2, 0)), &cell)) == None);
    assert!(rt; has_other_tag(&sealer, 42, None, &cell));
    cell[50] ^= 1;
    assert!(rt; has_other_tag(&sealer, 41, Some((2, 1)), &cell));
}

// ---- keys

// Whether a text of so many bytes is that of keys: this one first, and from the 193rd on line
// feeds, or else a digit throughout.
fn is_key_text(first: u8, len: usize, feeds: bool) -> bool {
    let mut text = [b'c'; 194];
    text[0] = first;
    if feeds {
        text[192] = b'\n';
        text[193] = b'\n';
    }
    Keys::from_hex(&text[..len.min(194)]).is_some()
}

const TEXTS: &[(u8, usize, bool, bool)] = &[
    (b'c', 190, false, false),
    (b'c', 191, false, false),
    (b'c', 192, false, true),
    (b'c', 193, false, false),
    (b'c', 193, true, true),
    (b'c', 194, true, false),
    (b'g', 192, false, false),
    (b'D', 192, false, true),
];

#[test]
fn key_text_has_192_digits_and_at_most_one_line_feed(rt: HostRuntime) {
    for (first, len, feeds, is_text) in TEXTS {
        assert!(rt; is_key_text(*first, *len, *feeds) == *is_text);
    }
}
