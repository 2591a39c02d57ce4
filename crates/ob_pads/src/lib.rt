//! Lives of a store: what is sealed in it over any number of runs and crashes.
#![tactic(auto)]

ghost use Rattle.ob_serial.specs.VaultKinds.{kind_of};
ghost use Rattle.ob_pads.specs.Laws.{PadsAreFresh, GenerationsAreDurable, LivesJoin, RunsJoin, UnopenedLives, ChainsAreNumbered, ChainsLive};

use ob_serial::Vault;
use ob_store::Store;

/// What every life of a store obeys: one format that went well, and then openings and calls of a
/// vault, each of which may be refused, with crashes at any moment, which leave any image that the
/// store may have left since the last act began.
///
/// No two seals have the same generation and number. And as long as a run goes on, each image that
/// a crash may leave tells its generation, so this is durable before anything is sealed with it.
pub fn pads_are_fresh<S: Store>()
    ensures fresh { PadsAreFresh (λ store. S.disk store) }
    ensures durable { GenerationsAreDurable (λ store. S.disk store) }
{}

/// How a life is put together: acts behind acts, a run behind a run, and a call that opened nothing
/// as a run.
pub fn runs_join<S: Store>()
    ensures join { LivesJoin (λ store. S.disk store) }
    ensures runs { RunsJoin (λ store. S.disk store) }
    ensures unopened { UnopenedLives (λ store. S.disk store) }
{}

/// An opening, and the chain of calls of the vault over it, are a run; and where calls that were
/// answered stand in front of those that weren't, the next seal has the number of the sealer
/// between.
pub fn chains_are_runs<V: Vault, S: Store>()
    ensures live { ChainsLive (kind_of V.Vault) (λ store. S.disk store) }
    ensures numbered { ChainsAreNumbered (kind_of V.Vault) (λ store. S.disk store) }
{}
