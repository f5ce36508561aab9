//! Laws of trimmed logs.

ghost use Rattle.std.specs.Prelude.{◌≡◌, true, ℕ, ◌+◌, ◌<◌, ◌↔◌, length, slice_get, Some};
ghost use Rattle.dsa_terms.specs.Buffers.{Instance};
ghost use Rattle.dsa_terms.specs.Logs.{IsAccepted, Line, Log, claim_of};
ghost use Rattle.dsa_terms.specs.Parts.{has};
ghost use Rattle.dsa_terms.specs.Trims.{IsCited, IsKept, IsTrimOf};
ghost use Rattle.dsa_trim_laws.specs.Trimmed.{needed, trimmed};

/// A log has one trim at most, and an accepted log has one: it is accepted, has the lines that the
/// end needs alone, and is its own trim.
pub fn trimming()
    ensures kept { (I : Instance) (log : Log) (k : ℕ) → IsAccepted I log →
        IsKept log k ↔ (has k (needed log) ≡ true) }
    ensures trim { (I : Instance) (log : Log) → IsAccepted I log → IsTrimOf log (trimmed log) }
    ensures one { (log t u : Log) → IsTrimOf log t → IsTrimOf log u → t ≡ u }
    ensures accepted { (I : Instance) (log : Log) → IsAccepted I log → IsAccepted I (trimmed log) }
    ensures end { (I : Instance) (log : Log) (line : Line) → IsAccepted I log →
        slice_get log.lines log.final ≡ Some line →
        (last : Line) × (slice_get (trimmed log).lines (trimmed log).final ≡ Some last)
        × (claim_of last ≡ claim_of line) }
    ensures cited { (I : Instance) (log : Log) (k : ℕ) → IsAccepted I log →
        k + 1 < length (trimmed log).lines → IsCited (trimmed log).lines k }
    ensures stays { (I : Instance) (log : Log) → IsAccepted I log →
        trimmed (trimmed log) ≡ trimmed log }
{}
