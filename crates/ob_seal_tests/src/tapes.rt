//! Words of both tapes, against a ChaCha20 made elsewhere; what threads share.

ghost use Rattle.std.specs.Prelude.{◌≡◌, ◌<◌};

use crate::shared::{test_keys, test_sealer};
use ob_seal::{ChaChaTape, ListTape, Tape};

// The first eight words of a generation.
fn first_words<T: Tape>(tape: &mut T, generation: u64) -> [u64; 8]
    requires { T.present tape.old < generation }
    ensures { T.present tape.new ≡ generation }
{
    tape.start(generation);
    [
        tape.draw(),
        tape.draw(),
        tape.draw(),
        tape.draw(),
        tape.draw(),
        tape.draw(),
        tape.draw(),
        tape.draw(),
    ]
}

// The words were made with a plain ChaCha20, as pairs of the words of a stream: those of the
// generations 1, 2, 2^32 + 5 and 2^62 - 1 under the key of the bytes 64 to 95.
const WORDS: [[u64; 8]; 4] = [
    [
        13670603335692962109,
        5406612556280187051,
        17658678537486856211,
        810997974296478754,
        9318734176778161532,
        16596274821029656742,
        15155534344732987987,
        12368006624608859365,
    ],
    [
        6358360514227290561,
        11633887360776027008,
        14052829551288606090,
        10622309020714539063,
        8358742212616247620,
        13241895270663691373,
        6863961451884081201,
        7239125541280387218,
    ],
    [
        15602111433001636811,
        7543342076945993637,
        18323893336177037164,
        15675636046207646081,
        14282420188689771862,
        12283571031424600676,
        7597523148150420799,
        10289711931018770929,
    ],
    [
        5301626367954813656,
        9953041470388927443,
        11832198952413707558,
        18311978105634126974,
        668766356143143156,
        14941308682660650552,
        11449858732138351560,
        9507198157590267791,
    ],
];

#[test]
fn words_are_pairs_of_the_streams_words(rt: HostRuntime) {
    let mut tape = ChaChaTape::new(&test_keys().tape);
    assert!(rt; first_words(&mut tape, 1) == WORDS[0]);
    assert!(rt; first_words(&mut tape, 2) == WORDS[1]);
    assert!(rt; first_words(&mut tape, 4294967301) == WORDS[2]);
    assert!(rt; first_words(&mut tape, 4611686018427387903) == WORDS[3]);
}

#[test]
fn each_generation_has_the_list_and_zeros_behind_it(rt: HostRuntime) {
    let mut tape = ListTape::new(rt.alloc(), &[3, 7]).expect(&rt, "memory");
    let words = [3, 7, 0, 0, 0, 0, 0, 0];
    assert!(rt; first_words(&mut tape, 1) == words);
    assert!(rt; first_words(&mut tape, 4) == words);
}

fn is_shared<T: Send + Sync>(_: &T) -> bool {
    true
}

#[test]
fn threads_share_sealers_and_tapes(rt: HostRuntime) {
    assert!(rt; is_shared(&test_sealer(1)));
    assert!(rt; is_shared(&ChaChaTape::new(&test_keys().tape)));
    assert!(rt; is_shared(&ListTape::new(rt.alloc(), &[1]).expect(&rt, "memory")));
}
