//! Laws of the parts of an instance.

ghost use Rattle.std.specs.Prelude.{◌≡◌, ◌≢◌, true, ℕ, ◌<◌, ◌≤◌, ◌↔◌, List, [], length, slice_get, Some};
ghost use Rattle.dsa_terms.specs.Buffers.{Instance, IsInstance, IsLive, buffer};
ghost use Rattle.dsa_terms.specs.Claims.{Places, Entry, IsIn, IsPlacement, IsRefuted, Rises, number_of};
ghost use Rattle.dsa_terms.specs.Layouts.{IsInfeasible, IsLayout};
ghost use Rattle.dsa_terms.specs.Parts.{are_uncut, is_cut, offsets_of, part_of, parts, whole};
ghost use Rattle.dsa_search_laws.specs.PartsByTime.{IsUncut, parts_by_time, Separates, start_of};
ghost use Rattle.dsa_search_laws.specs.Together.{AreTogether};
ghost use Rattle.std.specs.List.{AllZip, flat_map};

/// Buffers that share a moment are in one part, and so their parts begin at one cut. Where parts
/// begin at two cuts, the later one lies between them, and no cut lies between buffers whose parts
/// begin at one.
pub fn parts_share_no_moment()
    ensures sharing { (I : Instance) (b c t : ℕ) → b < length I → c < length I →
        IsLive (buffer I b) t → IsLive (buffer I c) t → part_of I b ≡ part_of I c }
    ensures starts { (I : Instance) (b c t : ℕ) → b < length I → c < length I →
        IsLive (buffer I b) t → IsLive (buffer I c) t → start_of I b ≡ start_of I c }
    ensures between { (I : Instance) (b c : ℕ) → b < length I → start_of I b < start_of I c →
        (is_cut I (start_of I c) ≡ true) × Separates (start_of I c) (buffer I b) (buffer I c) }
    ensures within { (I : Instance) (b c t : ℕ) → IsInstance I → b < length I →
        start_of I b ≡ start_of I c → is_cut I t ≡ true →
        Separates t (buffer I b) (buffer I c) → ⊥ }
{}

/// Two buffers are in one part exactly where no cut lies between them.
pub fn parts_are_uncut()
    ensures parts { (I : Instance) (b c : ℕ) → IsInstance I → b < length I → c < length I →
        (part_of I b ≡ part_of I c) ↔ IsUncut I b c }
    ensures starts { (I : Instance) (b c : ℕ) → IsInstance I → b < length I → c < length I →
        (start_of I b ≡ start_of I c) ↔ IsUncut I b c }
    ensures part { (I : Instance) (b c : ℕ) → IsInstance I → b < length I → c < length I →
        AreTogether I b c ↔ IsUncut I b c }
    ensures test { (I : Instance) (b c : ℕ) → b < length I → c < length I →
        AreTogether I b c ↔ (are_uncut I b c ≡ true) }
{}

/// The parts are, for each cut at which one begins, the buffers whose part begins there, in order
/// of time. `are_uncut` says just where the parts of two buffers begin at one cut, and of an
/// instance that is where no cut lies between the two.
pub fn parts_by_time_are_the_parts()
    ensures parts { (I : Instance) → parts I ≡ parts_by_time I }
    ensures starts { (I : Instance) (b c : ℕ) →
        (are_uncut I b c ≡ true) ↔ (start_of I b ≡ start_of I c) }
    ensures uncut { (I : Instance) (b c : ℕ) → IsInstance I → b < length I → c < length I →
        (are_uncut I b c ≡ true) ↔ IsUncut I b c }
{}

/// Each part is a greatest set of buffers that no cut separates: it is not empty, and has each
/// buffer that no cut separates from one of its own. The parts hold all buffers and stand in order
/// of time, so no buffer is in two of them.
pub fn parts_are_greatest()
    ensures members { (I : Instance) (p : List ℕ) → IsIn p (parts I) →
        (p ≢ []) × Rises p × ((b : ℕ) → IsIn b p → b < length I) }
    ensures cover { (I : Instance) (b : ℕ) → b < length I →
        (p : List ℕ) × IsIn p (parts I) × IsIn b p }
    ensures uncut { (I : Instance) (p : List ℕ) (b c : ℕ) → IsInstance I → IsIn p (parts I) →
        IsIn b p → IsIn c p → IsUncut I b c }
    ensures greatest { (I : Instance) (p : List ℕ) (b c : ℕ) → IsIn p (parts I) →
        IsIn b p → c < length I → IsUncut I b c → IsIn c p }
    ensures order { (I : Instance) (j k : ℕ) (p q : List ℕ) (b c : ℕ) → j < k →
        slice_get (parts I) j ≡ Some p → slice_get (parts I) k ≡ Some q →
        IsIn b p → IsIn c q → (buffer I b).upper ≤ (buffer I c).lower }
{}

/// Seats that place each part's whole claim are a layout, and one refuted part leaves no layout.
pub fn parts_make_the_whole()
    ensures layout { (I : Instance) (C : ℕ) (seats : List Entry) →
        ((p : List ℕ) → IsIn p (parts I) → Places I C (whole I p) (number_of seats)) →
        IsLayout I C (offsets_of I seats) }
    ensures none { (I : Instance) (C : ℕ) (p : List ℕ) → IsIn p (parts I) →
        IsRefuted I C (whole I p) → IsInfeasible I C }
{}

/// Placements of the whole claims of all parts, put together, are a layout.
pub fn parts_go_together()
    ensures { (I : Instance) (C : ℕ) (answers : List (List Entry)) →
        AllZip (λ p seats. IsPlacement I C (whole I p) seats) (parts I) answers →
        IsLayout I C (offsets_of I (flat_map (λ seats. seats) answers)) }
{}
