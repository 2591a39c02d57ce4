//! One key's versions and its readers.

ghost use Rattle.std.specs.Prelude.{◌≡◌, ℕ, ◌+◌, ◌<◌, ◌≤◌, max, if◌then◌else◌, ◌==◌, is_some, true, false, IfOk, OnOk, OnErr, Some, None};
ghost use Rattle.ob_key_versions.specs.Chains.{IsNewest, IsNextReader, link_in, links_in, has_reader};
ghost use Rattle.ob_key_versions.specs.Tables.{raised};
ghost use Rattle.std.specs.Option.{option_map};

use ob_base::{Memory, Value};
use std::alloc::Global;
use std::collections::{BTreeMap, BTreeSet};
use std::ops::Bound;

/// A version: the value, none for a delete, and the greatest ticket that has read it.
#[derive(Clone, Copy)]
pub struct Link {
    pub value: Option<Value>,
    pub mark: u64,
}

/// The versions of one key by their tickets, the greatest ticket that has read the value that the
/// epoch began with, and the tickets that are noted as readers of the key.
#[derive(Drop)]
pub struct Chain {
    pub base_mark: u64,
    pub links: BTreeMap<u64, Link>,
    pub readers: BTreeSet<u64>,
}

impl Chain {
    /// No versions, and no reader.
    pub(crate) fn new(alloc: Global) -> Chain
        ensures none { (t : ℕ) → link_in result t ≡ None }
        ensures len { links_in result ≡ 0 }
        ensures mark { result.base_mark ≡ 0 }
        ensures readers { (u : ℕ) → has_reader result u ≡ false }
    {
        Chain {
            base_mark: 0,
            links: BTreeMap::new(alloc),
            readers: BTreeSet::new(alloc),
        }
    }

    /// The newest version at or below the ticket, and its ticket.
    pub(crate) fn newest(&self, t: u64) -> Option<(u64, Link)>
        ensures { IsNewest (link_in self.now) t result }
    {
        match self.links.range(..=t).next_back() {
            Some((at, link)) => Some((*at, *link)),
            None => None,
        }
    }

    /// How many versions there are.
    pub(crate) fn len(&self) -> u64
        ensures { result ≡ links_in self.now }
    {
        self.links.len() as u64
    }

    /// The ticket has this version from now on. Answers whether it had one before.
    ///
    /// # Errors
    /// Memory was wanting. All is as before.
    pub(crate) fn put(&mut self, t: u64, link: Link) -> Result<bool, Memory>
        ensures had { IfOk result (λ had. had ≡ is_some (link_in self.old t)) }
        ensures len { IfOk result (λ had. links_in self.new
            ≡ links_in self.old + (if had then 0 else 1)) }
        ensures links { OnOk result ((u : ℕ)
            → link_in self.new u ≡ (if t == u then Some link else link_in self.old u)) }
        ensures mark { self.new.base_mark ≡ self.old.base_mark }
        ensures readers { self.new.readers ≡ self.old.readers }
        ensures err_len { OnErr result (links_in self.new ≡ links_in self.old) }
        ensures err { OnErr result ((u : ℕ) → link_in self.new u ≡ link_in self.old u) }
    {
        // The prover has to see this type named here.
        let _told: Option<Value> = None;
        let old = self.links.insert(t, link)?;
        Ok(old.is_some())
    }

    /// Takes the ticket's version away. Answers whether it had one.
    pub(crate) fn take(&mut self, t: u64) -> bool
        ensures had { result ≡ is_some (link_in self.old t) }
        ensures len { links_in self.old ≡ links_in self.new + (if result then 1 else 0) }
        ensures links { (u : ℕ)
            → link_in self.new u ≡ (if t == u then None else link_in self.old u) }
        ensures mark { self.new.base_mark ≡ self.old.base_mark }
        ensures readers { self.new.readers ≡ self.old.readers }
    {
        self.links.remove(&t).is_some()
    }

    /// The ticket's version, where it has one, was read by this one too.
    pub(crate) fn raise(&mut self, t: u64, reader: u64)
        ensures len { links_in self.new ≡ links_in self.old }
        ensures links { (u : ℕ)
            → link_in self.new u
            ≡ (if t == u then option_map (raised reader) (link_in self.old u) else link_in self.old
            u) }
        ensures mark { self.new.base_mark ≡ self.old.base_mark }
        ensures readers { self.new.readers ≡ self.old.readers }
    {
        if let Some(link) = self.links.get_mut(&t) {
            link.mark = link.mark.max(reader);
        }
    }

    /// The ticket is among the readers from now on.
    ///
    /// # Errors
    /// Memory was wanting. All is as before.
    pub(crate) fn note(&mut self, reader: u64) -> Result<(), Memory>
        ensures ok { OnOk result ((u : ℕ)
            → has_reader self.new u ≡ (if reader == u then true else has_reader self.old u)) }
        ensures err { OnErr result ((u : ℕ) → has_reader self.new u ≡ has_reader self.old u) }
        ensures links { self.new.links ≡ self.old.links }
        ensures mark { self.new.base_mark ≡ self.old.base_mark }
    {
        self.readers.insert(reader)?;
        Ok(())
    }

    /// The least reader above the ticket.
    pub(crate) fn reader_above(&self, t: u64) -> Option<u64>
        ensures { IsNextReader (has_reader self.now) t result }
    {
        match self
            .readers
            .range((Bound::Excluded(t), Bound::Unbounded))
            .next()
        {
            Some(reader) => Some(*reader),
            None => None,
        }
    }
}
