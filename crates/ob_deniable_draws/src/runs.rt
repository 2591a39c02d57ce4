//! Rows of runs of a store, and the calls in them.

ghost use Rattle.ob_deniable_draws.specs.Draws.{DrawsAreDeniable};
ghost use Rattle.ob_deniable_draws.specs.Fit.{OnlyFitAsksDraw};

use ob_store::Store;

/// Of a row of runs of a store behind its format, with crashes and returns between them, each
/// run's calls drawn, where the stash may keep all keys: for any other calls of the same shapes in
/// each of those runs there is one other tape, a life on it that does them, and, run by run, what a
/// vault keeps to itself there, from which these calls draw steps of their own. The notes and the
/// phases of these steps are the row's, and so is what is public before them. A call that was
/// refused behind them has the same notes and phases too, as far as it showed what it drew.
pub fn draws_are_deniable<S: Store>()
    ensures { DrawsAreDeniable (λ store. S.disk store) }
{}

/// The other batches have to ask for keys that are keys, each at one place: no other draws.
pub fn only_fit_asks_draw()
    ensures { OnlyFitAsksDraw }
{}
