//! Laws of the moment at which the log of the bound stands.

ghost use Rattle.std.specs.Prelude.{◌≡◌, ℕ, ◌≤◌};
ghost use Rattle.dsa_terms.specs.Bounds.{lower_bound};
ghost use Rattle.dsa_terms.specs.Buffers.{Instance};
ghost use Rattle.dsa_start_laws.specs.Reaching.{bound_moment};
ghost use Rattle.lifetime.specs.Determined.{AreSections};
ghost use Rattle.lifetime.specs.Runs.{starts_of};
ghost use Rattle.lifetime.specs.SectionList.{SectionList};
ghost use Rattle.lower_bounds.specs.BoundMoment.{IsBoundMoment};

/// The moment of the bound is the start of the first section of the instance that reaches it by the
/// bound's modulus, and there is one such moment.
pub fn bound_moment_is_one()
    ensures section { (I : Instance) (S : SectionList) → AreSections I S → 1 ≤ lower_bound I →
        IsBoundMoment I (bound_moment I (starts_of S.sections)) }
    ensures one { (I : Instance) (s u : ℕ) → IsBoundMoment I s → IsBoundMoment I u → s ≡ u }
{}
