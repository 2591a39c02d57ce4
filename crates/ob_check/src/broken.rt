//! The first rule that is broken.

ghost use Rattle.std.specs.Prelude.{◌≡◌, ◌∷◌, []};
ghost use Rattle.ob_cells.specs.Rules.{first_broken};
ghost use Rattle.ob_check.specs.Marks.{rule_of};
ghost use Rattle.ob_cells.specs.Rules.{or_rule};

// A number of a checkpoint's bytes that breaks its rule: the place of its first byte, the number,
// and the least one that the rule allows there.
#[derive(Clone, Copy, Drop)]
pub struct Broken {
    pub place: usize,
    pub kept: u64,
    pub least: u64,
}

/// Tests one rule.
pub fn check(place: usize, kept: u64, obeys: bool, least: u64) -> Option<Broken>
    ensures { rule_of result
        ≡ first_broken (record { place = place; kept = kept; obeys = obeys; least = least } ∷ []) }
{
    if obeys {
        return None;
    }
    Some(Broken { place, kept, least })
}

/// The first of two that is broken.
pub fn first(one: Option<Broken>, other: Option<Broken>) -> Option<Broken>
    ensures { rule_of result ≡ or_rule (rule_of one) (rule_of other) }
{
    match one {
        Some(broken) => Some(broken),
        None => other,
    }
}
