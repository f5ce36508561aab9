//! Laws of claims: the least aligned bound, covering, and the placement of least weight.

ghost use Rattle.std.specs.Prelude.{ℕ, ◌≤◌, List};
ghost use Rattle.dsa_terms.specs.Buffers.{Instance, IsInstance, buffer};
ghost use Rattle.dsa_terms.specs.Claims.{Claim, Covers, Entry, IsClaim, IsPlacement, IsRefuted, number_of, up};
ghost use Rattle.dsa_terms.specs.Layouts.{IsMultiple};
ghost use Rattle.dsa_search_laws.specs.Placements.{IsFirst, weight, IsSettled};

/// The up of an entry is the least multiple of its buffer's alignment at or above its bound.
pub fn up_is_least()
    ensures above { (I : Instance) (e : Entry) → IsInstance I → e.1 ≤ up I e }
    ensures multiple { (I : Instance) (e : Entry) → IsInstance I →
        IsMultiple (up I e) (buffer I e.0).alignment }
    ensures least { (I : Instance) (e : Entry) (y : ℕ) → IsInstance I → e.1 ≤ y →
        IsMultiple y (buffer I e.0).alignment → up I e ≤ y }
{}

/// What a refuted claim covers is refuted, and covering is transitive.
pub fn covering()
    ensures refuted { (I : Instance) (C : ℕ) (k l : Claim) → IsInstance I → Covers I k l →
        IsRefuted I C k → IsRefuted I C l }
    ensures transitive { (I : Instance) (k m l : Claim) → IsInstance I → Covers I k m →
        Covers I m l → Covers I k l }
{}

/// In a placement of least weight the first buffer by offset and then number is settled.
pub fn least_weight_is_settled()
    ensures { (I : Instance) (C : ℕ) (l : Claim) (seats : List Entry) (e : Entry) →
        IsInstance I → IsClaim I l → IsPlacement I C l seats → IsFirst l (number_of seats) e →
        ((others : List Entry) → IsPlacement I C l others →
        weight I (number_of seats) l ≤ weight I (number_of others) l) →
        IsSettled I C l (number_of seats) e }
{}
