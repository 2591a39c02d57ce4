//! Who stamps cells.

ghost use Rattle.std.specs.Prelude.{◌≡◌, ◌++◌, ℕ, List, take, IfOk, IfErr};

use ob_base::Damaged;

/// Who stamps cells, and knows stamped cells: 112 plain bytes, and behind them 16 bytes of tag.
pub trait Stamper {
    ghost use Rattle.ob_twin.specs.Bodies.{IsStamped, IsMisstamped};

    /// The tag of a cell and of its plain bytes.
    ghost tag: { Self → ℕ → List ℕ → List ℕ };

    /// The plain bytes with their tag in this cell.
    fn stamp(&self, cell: u64, plain: &[u8; 112]) -> [u8; 128]
        ensures { result ≡ plain.now ++ tag self.now cell plain.now };

    /// The plain bytes of a stamped cell.
    ///
    /// # Errors
    /// The cell is damaged: its tag is another than the one that was computed.
    fn unstamp(&self, cell: u64, bytes: &[u8; 128]) -> Result<[u8; 112], Damaged>
        ensures plain { IfOk result (λ plain. (plain ≡ take 112 bytes.now)
            × IsStamped (tag self.now) cell bytes.now) }
        ensures damaged { IfErr result (λ d. IsMisstamped (tag self.now) cell bytes.now d) };
}
