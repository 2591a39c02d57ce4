//! When the driver of epochs acts.

ghost use Rattle.std.specs.Prelude.{◌≡◌, ℕ, Bool, true, ◌&&◌, ◌==◌, nat_lt, [], List};
ghost use Rattle.std.specs.Borrow.{GName};

/// When the driver of epochs acts, by what it sees at a look.
pub trait Beat {
    // The looks at which it may act: waiting, live, queued, left.
    ghost passes: { ℕ → ℕ → ℕ → ℕ → Bool };

    // Whether it acts at each look that passes.
    ghost exact: { Bool };

    // What it keeps by reference.
    ghost anchors: { Self → List GName };

    /// Whether to act at a look that shows so many transactions that wait, transactions that aren't
    /// aborted, keys in the queue and batches not yet taken.
    fn due(&mut self, waiting: u64, live: u64, queued: u64, left: u64) -> bool
        ensures passes { result ≡ true → passes waiting live queued left ≡ true }
        ensures exact { exact ≡ true → passes waiting live queued left ≡ true → result ≡ true }
        ensures anchors { anchors self.new ≡ anchors self.old };
}

/// Acts just where each transaction that isn't aborted waits, and there is one. So it aborts none
/// that could go on.
#[derive(Clone, Copy)]
pub struct Eager;

impl Beat for Eager {
    ghost passes = { λ waiting live queued left. nat_lt 0 live && (waiting == live) };

    ghost exact = { true };

    ghost anchors = { λ _. [] };

    fn due(&mut self, waiting: u64, live: u64, _queued: u64, _left: u64) -> bool
        ensures passes { result ≡ (nat_lt 0 live && (waiting == live)) }
        ensures same { self.new ≡ self.old }
    {
        live > 0 && waiting == live
    }
}

/// Acts at every look.
#[derive(Clone, Copy)]
pub struct Hasty;

impl Beat for Hasty {
    ghost passes = { λ waiting live queued left. true };

    ghost exact = { true };

    ghost anchors = { λ _. [] };

    fn due(&mut self, _waiting: u64, _live: u64, _queued: u64, _left: u64) -> bool
        ensures passes { result ≡ true }
        ensures same { self.new ≡ self.old }
    {
        true
    }
}
