//! The calls on claims.

ghost use Rattle.std.specs.Prelude.{◌≡◌, ◌≤◌, ◌<◌, ◌+◌, ◌^◌, IfOk, IfErr, IfNone, MatchOption};
ghost use Rattle.ob_claims.specs.ClaimRule.{first_hold, kept_hold, new_hold, both_holds};
ghost use Rattle.ob_claims.specs.ClaimCalls.{IsClaimSeat, HasEveryPart, HasCome, KnowsClaims, OpensRound, ClaimsNumber, FindsNone, IsAllClaimed, parts_made};

use crate::claims::{Claim, ClaimSeat, Claims, Clear, Look, Part, Round};
use atomic_table::Table;
use ob_base::{Memory, NUMBER_LIMIT, Worn};
use std::alloc::Global;

impl Claims {
    /// Claims at 0, and their one seat, with so many parts (1 to `2^62`), each of which can be
    /// split off.
    ///
    /// # Errors
    /// Memory was wanting.
    pub fn new(alloc: Global, seats: u64) -> Result<(Claims, ClaimSeat), Memory>
        requires some { 1 ≤ seats }
        requires few { seats ≤ 2 ^ 62 }
        ensures { IfOk result (λ c. IsClaimSeat c.0 c.1 × (parts_made c.0 ≡ seats)
            × (c.1.me.0 ≡ first_hold seats)) }
    {
        let (table, seat) = Table::of_words(alloc, &[0], &seats)?;
        Ok((Claims { table, seats }, seat))
    }

    /// A round of the next so many numbers, of which none is claimed, for who has all parts. Its
    /// linearization point is one load.
    ///
    /// # Errors
    /// Worn exactly where the counter, the round and the seats together pass `2^62`. Nothing has
    /// changed.
    pub fn open(&self, seat: &mut ClaimSeat, count: u64) -> Result<Round, Worn>
        requires own { IsClaimSeat self.now seat.old }
        requires all { HasEveryPart self.now seat.old }
        ensures own { IsClaimSeat self.now seat.new }
        ensures claimed_once { KnowsClaims seat.old seat.new seat.new.me.0.reached }
        ensures opened { IfOk result (λ round. OpensRound self.now seat.new count round) }
        ensures worn { IfErr result (λ _.
            2 ^ 62 < seat.new.me.0.reached + count + parts_made self.now) }
        ensures number { IfErr result (λ worn. worn.number ≡ 2 ^ 62) }
    {
        let start = self.settle(seat);
        if start.saturating_add(count).saturating_add(self.seats) > NUMBER_LIMIT {
            return Err(Worn {
                number: NUMBER_LIMIT,
            });
        }
        Ok(Round { start, count })
    }

    /// Claims the next number of a round that was opened, and tells its place there; None exactly
    /// where all of them are claimed. Its linearization point is one addition, or the load that
    /// found the counter at the round's end.
    pub fn next(&self, seat: &mut ClaimSeat, round: &Round) -> Option<usize>
        requires own { IsClaimSeat self.now seat.old }
        requires opened { HasCome seat.old round.now }
        ensures own { IsClaimSeat self.now seat.new }
        ensures parts { seat.new.me.0.parts ≡ seat.old.me.0.parts }
        ensures rises { seat.old.me.0.reached ≤ seat.new.me.0.reached }
        ensures claimed { MatchOption result (FindsNone seat.old seat.new round.now)
            (λ place. ClaimsNumber seat.old seat.new round.now place) }
        ensures all_claimed { IfNone result (HasEveryPart self.now seat.old
            → IsAllClaimed seat.new round.now) }
    {
        let end = round.start + round.count;
        if self.table.shared.load::<Look>(seat, 0) >= end {
            return None;
        }
        let number = self.table.shared.fetch_add::<Claim>(seat, 0, 1);
        if number >= end {
            return None;
        }
        Some((number - round.start) as usize)
    }

    /// Where the counter stands, for who has all parts: each number below is claimed, once, and no
    /// other is. Its linearization point is one load.
    pub fn settle(&self, seat: &mut ClaimSeat) -> u64
        requires own { IsClaimSeat self.now seat.old }
        requires all { HasEveryPart self.now seat.old }
        ensures own { IsClaimSeat self.now seat.new }
        ensures claimed_once { KnowsClaims seat.old seat.new result }
    {
        self.table.shared.load::<Look>(seat, 0)
    }

    /// Sets the counter to 0, for who has all parts: nothing is claimed then. Its linearization
    /// point is one store.
    pub fn clear(&self, seat: &mut ClaimSeat)
        requires own { IsClaimSeat self.now seat.old }
        requires all { HasEveryPart self.now seat.old }
        ensures own { IsClaimSeat self.now seat.new }
        ensures cleared { seat.new.me.0 ≡ first_hold (parts_made self.now) }
    {
        self.table.shared.store::<Clear>(seat, 0, 0);
    }

    /// Takes one part off a seat that has two or more. The new seat has claimed nothing.
    pub fn split(&self, seat: &mut ClaimSeat) -> ClaimSeat
        requires own { IsClaimSeat self.now seat.old }
        requires parts { 2 ≤ seat.old.me.0.parts }
        ensures own { IsClaimSeat self.now seat.new × IsClaimSeat self.now result }
        ensures kept { seat.new.me.0 ≡ kept_hold seat.old.me.0 }
        ensures given { result.me.0 ≡ new_hold seat.old.me.0 }
    {
        self.table.shared.split_seat::<Part>(seat)
    }

    /// Takes in another seat, with all its parts and what it has claimed.
    pub fn join(&self, seat: &mut ClaimSeat, other: ClaimSeat)
        requires own { IsClaimSeat self.now seat.old × IsClaimSeat self.now other }
        ensures own { IsClaimSeat self.now seat.new }
        ensures both { seat.new.me.0 ≡ both_holds seat.old.me.0 other.me.0 }
    {
        self.table.shared.join_seat::<Part>(seat, other)
    }
}
