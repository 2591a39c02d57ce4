//! Keys in order, each once, with a look-up by hash.

ghost use Rattle.std.specs.Prelude.{◌≡◌, ℕ, ◌-◌, ◌==◌, ◌<◌, ◌≤◌, ◌&&◌, not, false, nat_eq, length, take, drop, OnOk, OnErr, [], ◌∷◌, ◌++◌};
ghost use Rattle.std.specs.List.{list_any};

use ob_base::{Key, Memory};
use std::alloc::Global;
use std::collections::HashSet;
use std::marker::Model;

/// Keys in order, each once. One is found by its hash. Contracts see them in order.
#[derive(Drop)]
pub struct KeyList {
    keys: Vec<Key>,
    // The same keys.
    known: HashSet<Key>,
}

impl Model for KeyList {
    ghost use Rattle.std.specs.Prelude.{ℕ, List};
    ghost use Rattle.ob_queue.specs.Queues.{AreOnce};

    ghost Value = { List ℕ };

    ghost view = { λ l. l.keys.items };

    ghost invariant = { λ l. AreOnce l.known.keys l.keys.items };
}

// None of these keys is known from now on.
fn forget(known: &mut HashSet<Key>, keys: &[Key])
    ensures { (k : ℕ) → list_any (nat_eq k) known.new.keys
        ≡ (not (list_any (λ j. j == k) keys.now) && list_any (nat_eq k) known.old.keys) }
{
    for i in 0..keys.len() {
        let key = keys[i];
        known.remove(&key);
    }
}

impl KeyList {
    /// No keys. It takes no memory.
    #[tactic(auto, using(crate::proofs::Once::once_empty))]
    pub(crate) fn new(alloc: Global) -> KeyList
        ensures { result ≡ [] }
    {
        KeyList {
            keys: Vec::new(alloc),
            known: HashSet::new(alloc),
        }
    }

    /// Forgets them all. It takes no memory, and keeps what there is.
    #[tactic(auto, using(crate::proofs::Once::once_empty))]
    pub(crate) fn clear(&mut self)
        ensures { self.new ≡ [] }
    {
        self.keys.clear();
        self.known.clear();
    }

    /// Whether the key is one of them.
    pub(crate) fn contains(&self, key: Key) -> bool
        ensures { result ≡ list_any (λ j. j == key) self.now }
    {
        self.known.contains(&key)
    }

    /// The key is the last from now on.
    ///
    /// # Errors
    /// Memory was wanting. All is as before.
    pub(crate) fn push(&mut self, key: Key) -> Result<(), Memory>
        requires { list_any (λ j. j == key) self.old ≡ false }
        ensures ok { OnOk result (self.new ≡ self.old ++ key ∷ []) }
        ensures err { OnErr result (self.new ≡ self.old) }
    {
        // Made first: what follows then needs no memory.
        self.keys.reserve(1)?;
        self.known.insert(key)?;
        self.keys.push_reserved(key);
        Ok(())
    }

    /// The last key goes. It takes no memory.
    pub(crate) fn drop_last(&mut self)
        requires { 0 < length self.old }
        ensures { self.new ≡ take (length self.old - 1) self.old }
    {
        let rest = self.keys.len() - 1;
        forget(&mut self.known, &self.keys.as_slice()[rest..]);
        self.keys.truncate(rest);
    }

    /// The first so many keys go. It takes no memory.
    pub(crate) fn drop_front(&mut self, many: usize)
        requires { many ≤ length self.old }
        ensures { self.new ≡ drop many self.old }
    {
        forget(&mut self.known, &self.keys.as_slice()[..many]);
        drop(self.keys.drain(..many));
    }

    /// The keys in order.
    pub(crate) fn as_slice(&self) -> &[Key]
        ensures { result.now ≡ self.now }
    {
        self.keys.as_slice()
    }

    /// How many keys there are.
    pub(crate) fn len(&self) -> usize
        ensures { result ≡ length self.now }
    {
        self.keys.len()
    }
}
