//! Laws of logs: a legal line refutes its claim, and an accepted log leaves no layout.

ghost use Rattle.std.specs.Prelude.{ℕ, List};
ghost use Rattle.dsa_terms.specs.Buffers.{Instance, IsInstance};
ghost use Rattle.dsa_terms.specs.Claims.{IsRefuted};
ghost use Rattle.dsa_terms.specs.Layouts.{IsInfeasible};
ghost use Rattle.dsa_terms.specs.Logs.{IsAccepted, IsLegal, Line, Log, claim_of};
ghost use Rattle.dsa_search_laws.specs.Placements.{AreRefuted};

/// A legal line after lines whose claims are refuted has a refuted claim.
pub fn legal_line_refutes()
    ensures { (I : Instance) (C : ℕ) (earlier : List Line) (line : Line) → IsInstance I →
        AreRefuted I C earlier → IsLegal I C earlier line → IsRefuted I C (claim_of line) }
{}

/// An accepted log means that no layout fits.
pub fn accepted_log_refutes()
    ensures { (I : Instance) (log : Log) → IsInstance I → IsAccepted I log →
        IsInfeasible I log.capacity }
{}
