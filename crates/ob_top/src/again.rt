//! That the premises of the headline are met.

ghost use Rattle.ob_top.specs.Again.{CrashesStand, FormatsStand, RunsStand};

use ob_store::Store;

/// A store that a format made is one of which the headline speaks, at the empty map, and with no
/// act since. So is, with the acts of a run more, what that left: as it is, where nothing cut the
/// run off, and else from each image that a crash leaves behind it.
pub fn stood_again<S: Store>()
    ensures formats { FormatsStand (λ store. S.disk store) }
    ensures runs { RunsStand (λ store. S.disk store) }
    ensures crashes { CrashesStand (λ store. S.disk store) }
{}
