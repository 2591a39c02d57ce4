//! The bytes of a record.

ghost use Rattle.std.specs.Prelude.{◌≡◌, ◌≤◌, ◌+◌, ◌*◌, ◌++◌, ℕ, length};
ghost use Rattle.ob_log.specs.Logs.{ask_bytes, places_bytes, record_bytes};

use arrayvec::ArrayVec;
use ob_base::Key;

// Room for the bytes of the longest record.
pub type Bytes = ArrayVec<u8, 852>;

// Bytes behind the others.
fn add(all: &mut Bytes, part: &[u8])
    requires room { length all.old.items + length part.now ≤ 852 }
    ensures { all.new.items ≡ all.old.items ++ part.now }
{
    match all.try_extend_from_slice(part) {
        Ok(()) => {}
        Err(_) => unreachable!(),
    }
}

// What a place asks for.
fn ask_bytes(ask: Option<Key>) -> [u8; 5]
    ensures { result ≡ ask_bytes ask }
{
    let mut bytes = [0; 5];
    if let Some(key) = ask {
        bytes[0] = 1;
        bytes[1..].copy_from_slice(&key.to_le_bytes());
    }
    bytes
}

// The places, one behind the other.
fn add_places(all: &mut Bytes, asks: &[Option<Key>], words: &[u64])
    requires same { length words.now ≡ length asks.now }
    requires room { length all.old.items + 13 * length asks.now ≤ 852 }
    ensures { all.new.items ≡ all.old.items ++ places_bytes asks.now words.now }
{
    for i in 0..asks.len() {
        add(all, &ask_bytes(asks[i]));
        add(all, &words[i].to_le_bytes());
    }
}

/// The bytes of a batch's record.
pub fn record_bytes(
    epoch: u64,
    batch: u32,
    first: u64,
    asks: &[Option<Key>],
    words: &[u64],
) -> Bytes
    requires same { length words.now ≡ length asks.now }
    requires few { length asks.now ≤ 64 }
    ensures { (generation number : ℕ)
        → result.items
        ≡ record_bytes epoch (record {
          batch = batch;
          generation = generation;
          number = number;
          first = first;
          asks = asks.now;
          words = words.now;
        }) }
{
    let mut all = Bytes::new();
    add(&mut all, &epoch.to_le_bytes());
    add(&mut all, &batch.to_le_bytes());
    add(&mut all, &first.to_le_bytes());
    add_places(&mut all, asks, words);
    all
}
