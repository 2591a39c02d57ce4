//! What the traces of runs behind each other tell.

ghost use Rattle.ob_top.specs.Rows.{RowsFit};

use ob_store::Store;

/// Runs that served, over a store that a format made, each of which began at an image that a crash
/// left behind the one before, or behind the format, show their watches the runs of a public
/// history. So the lines of the format and of these runs, one behind the other, are admitted,
/// whichever call was refused, and wherever.
pub fn rows_fit<S: Store>()
    ensures { RowsFit (λ store. S.disk store) }
{}
