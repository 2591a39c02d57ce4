//! The position map.

ghost use Rattle.std.specs.Prelude.{◌≡◌, ◌<◌, length, replicate, slice_set, IfOk, Some, None};
ghost use Rattle.ob_tables.specs.Kept.{entry_at};

use crate::entry::Entry;
use ob_base::{Key, Memory};
use std::alloc::Global;
use std::marker::Model;

/// The position map: of each key below n its entry, if it is present. Contracts see the list of
/// these, by key.
#[derive(Drop)]
pub struct Book {
    entries: Vec<Option<Entry>>,
}

impl Model for Book {
    ghost use Rattle.std.specs.Prelude.{List, Option};
    ghost use Rattle.ob_tables.specs.declared.entry.Entry.{Entry as Kept};

    ghost Value = { List (Option Kept) };

    ghost view = { λ b. b.entries.items };
}

impl Book {
    /// The book in which none of the n keys is present.
    ///
    /// # Errors
    /// Memory was wanting.
    pub fn new(alloc: Global, n: u32) -> Result<Book, Memory>
        ensures { IfOk result (λ b. b ≡ replicate n None) }
    {
        Ok(Book {
            entries: vec![in alloc; None; n as usize]?,
        })
    }

    /// The key's entry, if it is present.
    pub fn get(&self, k: Key) -> Option<Entry>
        requires { k < length self.now }
        ensures { result ≡ entry_at self.now k }
    {
        self.entries[k as usize]
    }

    /// The key is present, with this entry.
    pub fn set(&mut self, k: Key, e: Entry)
        requires { k < length self.old }
        ensures { self.new ≡ slice_set self.old k (Some e) }
    {
        self.entries[k as usize] = Some(e);
    }

    /// The key is not present any more.
    pub fn forget(&mut self, k: Key)
        requires { k < length self.old }
        ensures { self.new ≡ slice_set self.old k None }
    {
        self.entries[k as usize] = None;
    }
}
