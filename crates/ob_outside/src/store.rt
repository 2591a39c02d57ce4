//! A file as a store.

ghost use Rattle.std.specs.Prelude.{◌≡◌, ◌≤◌, IfOk, None};
ghost use Rattle.ob_store.specs.Disk.{silent};
ghost use Rattle.ob_outside.specs.Counts.{CountsFault, with_more};

use crate::cell::{offset_of, read_cell, sync_file};
use crate::gathering::Gathered;
use crate::locking::{Node, open_cells};
use ob_base::Failed;
use ob_store::Store;
use std::alloc::{AllocError, Global};
use std::fs::File;
use std::rt::Files;

/// Why a store's file was not opened.
#[derive(Drop)]
pub enum OpenErr {
    /// Memory was wanting.
    Memory(AllocError),
    /// The file can't be opened for reading and writing, or another has it locked.
    Failed,
}

/// A store in a file: cell k is the 128 bytes from `128 * k` on, and bytes past the file's end are
/// zeros. It tells how often it has failed, and nothing of what it holds. As long as it lives the
/// file is locked: no other program, and no other store, has it. The files of lanes that are given
/// back, up to 16, are kept open for the next ones: to look at a file's state before each batch of
/// reads makes its next sync take longer.
///
/// Cells that are written one behind the other are gathered, up to 256, and handed to the system
/// together: before a cell that doesn't follow them, a lane, and a sync. Where that fails, or a sync
/// does, each later write, lane and sync fails too, since what the system has lost then would not be
/// told again. What was not synced may be lost when the store is let go.
#[derive(Drop)]
pub struct FileStore<R: Files<File = File>> {
    rt: R,
    path: String,
    file: File,
    node: Node,
    idle: Vec<File>,
    gathered: Gathered,
    has_lost: bool,
    out: u64,
    faults: u64,
}

/// The file, opened once more, and how often its reads have failed.
#[derive(Drop)]
pub struct FileLane {
    pub(crate) file: File,
    node: Node,
    pub(crate) faults: u64,
}

// How many files of lanes are kept.
const IDLE: usize = 16;

impl<R: Files<File = File>> FileStore<R> {
    /// Opens the file of a store, a regular file or a block device, and locks it for itself. With
    /// `create` it makes the file where there is none; it empties none. Nothing is read or written.
    ///
    /// # Errors
    /// Memory was wanting, or the file can't be opened for reading and writing, or be locked:
    /// another has it locked, or its file system has no locks.
    pub fn open(rt: R, alloc: Global, path: &str, create: bool) -> Result<FileStore<R>, OpenErr>
    where
        R: Drop,
        ensures { IfOk result (λ s. s.faults ≡ 0) }
    {
        let path = match String::from_str(alloc, path) {
            Ok(path) => path,
            Err(wanting) => return Err(OpenErr::Memory(wanting)),
        };
        let idle = match Vec::with_capacity(alloc, IDLE) {
            Ok(idle) => idle,
            Err(wanting) => return Err(OpenErr::Memory(wanting)),
        };
        let gathered = match Gathered::new(alloc) {
            Ok(gathered) => gathered,
            Err(wanting) => return Err(OpenErr::Memory(wanting)),
        };
        let (file, node) = match open_cells(&rt, path.as_str(), create) {
            Ok(opened) => opened,
            Err(Failed) => return Err(OpenErr::Failed),
        };
        if file.try_lock().is_err() {
            return Err(OpenErr::Failed);
        }
        Ok(FileStore {
            rt,
            path,
            file,
            node,
            idle,
            gathered,
            has_lost: false,
            out: 0,
            faults: 0,
        })
    }

    // The file once more. The first lane's is opened by the path, and another file there is none of
    // this store; beside it the others' are copies of the store's own, which goes on where the file
    // was moved.
    fn opened_again(&self) -> Result<File, Failed> {
        if self.out > 0 {
            return match self.file.try_clone() {
                Ok(file) => Ok(file),
                Err(_) => Err(Failed),
            };
        }
        match open_cells(&self.rt, self.path.as_str(), false) {
            Ok((file, node)) if node == self.node => Ok(file),
            _ => Err(Failed),
        }
    }

    // Hands over what was gathered.
    fn hand_over(&mut self) -> Result<(), Failed>
        ensures { self.new.faults ≡ self.old.faults }
    {
        if self.has_lost {
            return Err(Failed);
        }
        let outcome = self.gathered.hand_over(&self.file);
        self.has_lost = outcome.is_err();
        outcome
    }

    // Gathers a cell, behind those that it doesn't follow.
    fn gather(&mut self, cell: u64, bytes: &[u8; 128]) -> Result<(), Failed>
        ensures { self.new.faults ≡ self.old.faults }
    {
        offset_of(cell)?;
        if !self.has_lost && self.gathered.take(cell, bytes) {
            return Ok(());
        }
        self.hand_over()?;
        match self.gathered.take(cell, bytes) {
            true => Ok(()),
            false => Err(Failed),
        }
    }

    // Makes sure of all that was written.
    fn make_sure(&mut self) -> Result<(), Failed>
        ensures { self.new.faults ≡ self.old.faults }
    {
        self.hand_over()?;
        let outcome = sync_file(&self.file);
        self.has_lost = outcome.is_err();
        outcome
    }

    // A file for a lane, to which all that was written is handed.
    fn file_for_lane(&mut self) -> Result<File, Failed>
        ensures { self.new.faults ≡ self.old.faults }
    {
        self.hand_over()?;
        match self.idle.pop() {
            Some(file) => Ok(file),
            None => self.opened_again(),
        }
    }
}

// Counts a failure.
fn count(faults: &mut u64, outcome: Result<(), Failed>) -> Result<(), Failed>
    ensures same { result ≡ outcome }
    ensures counts { CountsFault faults.old faults.new result }
{
    if outcome.is_err() {
        *faults = faults.saturating_add(1);
    }
    outcome
}

impl<R: Files<File = File> + Sync> Store for FileStore<R> {
    type Lane = FileLane;

    ghost disk = { λ s. silent s.faults };

    ghost lane_faults = { λ l. l.faults };

    ghost lane_seen = { λ _. None };

    ghost counts_now = { λ _ t c le left. absurd left };

    ghost only_now = { λ _ c left. absurd left };

    ghost includes_reads = { λ _ tells leaves. absurd leaves };

    fn lane(&mut self) -> Result<FileLane, Failed>
        ensures counts { CountsFault self.old.faults self.new.faults result }
        ensures fresh { IfOk result (λ lane. lane.faults ≡ 0) }
    {
        let Ok(file) = self.file_for_lane() else {
            self.faults = self.faults.saturating_add(1);
            return Err(Failed);
        };
        self.out = self.out.saturating_add(1);
        let (node, faults) = (self.node, 0);
        Ok(FileLane { file, node, faults })
    }

    fn read(&self, lane: &mut FileLane, cell: u64, out: &mut [u8; 128]) -> Result<(), Failed>
        ensures counts { CountsFault lane.old.faults lane.new.faults result }
    {
        count(&mut lane.faults, read_cell(&lane.file, cell, out))
    }

    fn absorb(&mut self, lane: FileLane)
        ensures counts { self.new.faults ≡ with_more lane.faults self.old.faults }
        ensures later { self.old.faults ≤ self.new.faults }
    {
        let FileLane { file, node, faults } = lane;
        if node == self.node && self.idle.len() < self.idle.capacity() {
            self.idle.push_reserved(file);
        }
        self.out = self.out.saturating_sub(1);
        self.faults = self.faults.saturating_add(faults);
    }

    fn write(&mut self, cell: u64, bytes: &[u8; 128]) -> Result<(), Failed>
        ensures counts { CountsFault self.old.faults self.new.faults result }
    {
        let outcome = self.gather(cell, bytes);
        count(&mut self.faults, outcome)
    }

    fn sync(&mut self) -> Result<(), Failed>
        ensures counts { CountsFault self.old.faults self.new.faults result }
    {
        let outcome = self.make_sure();
        count(&mut self.faults, outcome)
    }
}
