//! Words drawn for the buckets of a new store.

ghost use Rattle.std.specs.Prelude.{◌≡◌, ◌≤◌, ◌<◌, ◌+◌, ◌*◌, ◌^◌, ◌++◌, [], length, map};
ghost use Rattle.ob_base.specs.Tree.{below, buckets, width};
ghost use Rattle.ob_tables.specs.Buckets.{new_buckets, version_at, with_version};
ghost use Rattle.ob_tables.specs.Version.{blank};
ghost use Rattle.ob_stand.specs.Fresh.{fresh_version};
ghost use Rattle.ob_opening.specs.Formats.{drawn_ranks, first_version, format_words};

use ob_base::{Params, buckets};
use ob_seal::Tape;
use ob_tables::Metas;

/// Draws a word for each place.
pub fn draw_words<T: Tape>(tape: &mut T, words: &mut [u64])
    requires room { length (T.drawn tape.old) + length words.old ≤ 2 ^ 62 }
    ensures drawn { T.drawn tape.new ≡ T.drawn tape.old ++ words.new }
    ensures many { length words.new ≡ length words.old }
    ensures same { T.present tape.new ≡ T.present tape.old }
{
    for i in 0..words.len() {
        words[i] = tape.draw();
    }
}

// Gives a bucket its first version: in home 0, without keys, its slots the ranks of words drawn for
// it.
fn fill_first<T: Tape>(tape: &mut T, p: &Params, metas: &mut Metas, bucket: u32, words: &mut [u64])
    requires words { length words.old ≡ width p.now }
    requires bucket { bucket < buckets p.now }
    requires many { length metas.old.versions ≡ buckets p.now }
    requires blank { version_at metas.old.versions bucket ≡ blank p.now }
    requires room { length (T.drawn tape.old) + width p.now ≤ 2 ^ 62 }
    ensures drawn { T.drawn tape.new ≡ T.drawn tape.old ++ words.new }
    ensures words { length words.new ≡ length words.old }
    ensures same { T.present tape.new ≡ T.present tape.old }
    ensures version { metas.new
        ≡ with_version metas.old bucket (first_version p.now bucket words.new) }
{
    draw_words(tape, words);
    let base = bucket as u64 * (p.real + p.dummies) as u64;
    metas.get_mut(bucket).fill(0, 1, base, &[], words);
}

/// Gives each bucket its first version, in rising number.
pub fn fill_all<T: Tape>(tape: &mut T, p: &Params, metas: &mut Metas)
    requires none { T.drawn tape.old ≡ [] }
    requires blank { metas.old ≡ new_buckets p.now }
    ensures versions { metas.new
        ≡ record metas.old {
          versions = map (fresh_version p.now (drawn_ranks p.now
              (T.drawn tape.new))) (below (buckets p.now));
        } }
    ensures many { length (T.drawn tape.new) ≡ format_words p.now }
    ensures same { T.present tape.new ≡ T.present tape.old }
{
    let width = (p.real + p.dummies) as usize;
    let mut words = [0; 48];
    for bucket in 0..buckets(p) {
        fill_first(tape, p, metas, bucket, &mut words[..width]);
    }
}
