//! Room for the plain bytes of a checkpoint.

ghost use Rattle.std.specs.Prelude.{◌≡◌, ◌+◌, ◌*◌, ◌/◌, ◌%◌, ◌^◌, ◌<◌, ◌≤◌, IfErr, IfOk, length, take};
ghost use Rattle.ob_cells.specs.Reads.{ReadsRun};
ghost use Rattle.ob_store.specs.Calls.{IsStoreFault, Keeps, Serves};
ghost use Rattle.ob_store.specs.Images.{Passes, Same};
ghost use Rattle.ob_base.specs.Layout.{checkpoint_cells, checkpoint_len};
ghost use Rattle.ob_tables.specs.Content.{Obeys, content_of};
ghost use Rattle.ob_tables.specs.Spelling.{checkpoint_bytes};

use crate::spell::spell;
use ob_base::{Fault, Memory, Params, checkpoint_cells, checkpoint_len};
use ob_cells::{Identity, read_sealed};
use ob_seal::Sealer;
use ob_store::{Store, Watch};
use ob_tables::{Metas, Tables};
use std::alloc::Global;
use std::marker::Model;

/// Room for the plain bytes of a checkpoint's cells, so that writing one takes no memory. Contracts
/// see the bytes.
#[derive(Drop)]
pub struct Sheet {
    bytes: Vec<u8>,
}

impl Model for Sheet {
    ghost use Rattle.std.specs.Prelude.{List, ℕ};

    ghost Value = { List ℕ };

    ghost view = { λ s. s.bytes.items };
}

impl Sheet {
    /// Room for a checkpoint of these parameters: 96 bytes a cell.
    ///
    /// # Errors
    /// Memory was wanting.
    pub fn new(alloc: Global, p: &Params) -> Result<Sheet, Memory>
        ensures { IfOk result (λ s. length s ≡ 96 * checkpoint_cells p.now) }
    {
        let many = 96 * checkpoint_cells(p) as usize;
        Ok(Sheet {
            bytes: vec![in alloc; 0; many]?,
        })
    }

    // Writes the checkpoint of the tables at an epoch over the front.
    pub(crate) fn spell(&mut self, p: &Params, epoch: u64, tables: &Tables<Metas>)
        requires long { length self.old ≡ 96 * checkpoint_cells p.now }
        requires obeys { Obeys p.now (content_of tables.now) }
        ensures spelled { take (checkpoint_len p.now) self.new
            ≡ checkpoint_bytes p.now epoch (content_of tables.now) }
        ensures long { length self.new ≡ length self.old }
    {
        let len = checkpoint_len(p) as usize;
        spell_front(p, epoch, tables, self.bytes.as_mut_slice(), len);
    }

    // Reads the cells of a checkpoint from a cell on, up to the first that breaks a rule.
    pub(crate) fn read<S: Store, W: Watch>(
        &mut self,
        store: &mut S,
        sealer: &Sealer,
        base: u64,
        watch: &mut W,
    ) -> Result<Identity, Fault>
        requires some { 0 < length self.old }
        requires whole { length self.old % 96 ≡ 0 }
        requires fits { base + length self.old / 96 < 2 ^ 64 }
        ensures serves { Serves IsStoreFault (S.disk store.old) (S.disk store.new) result }
        ensures run { ReadsRun sealer.now.keys base (length self.old / 96) (S.disk store.old)
            self.new (S.disk store.old).seen (S.disk store.new).seen (W.trace watch.old)
            (W.trace watch.new) result }
        ensures keeps { Keeps (S.disk store.old) (S.disk store.new) }
        ensures passes { Passes Same (S.disk store.old) (S.disk store.new) }
        ensures long { length self.new ≡ length self.old }
    {
        read_sealed(store, sealer, base, self.bytes.as_mut_slice(), watch)
    }

    // The bytes.
    pub(crate) fn bytes(&self) -> &[u8]
        ensures { result.now ≡ self.now }
    {
        self.bytes.as_slice()
    }
}

// Writes the checkpoint of the tables at an epoch over the front of the bytes.
fn spell_front(p: &Params, epoch: u64, tables: &Tables<Metas>, out: &mut [u8], len: usize)
    requires len { len ≡ checkpoint_len p.now }
    requires long { len ≤ length out.old }
    requires obeys { Obeys p.now (content_of tables.now) }
    ensures spelled { take len out.new ≡ checkpoint_bytes p.now epoch (content_of tables.now) }
    ensures long { length out.new ≡ length out.old }
{
    spell(p, epoch, tables, &mut out[..len]);
}
