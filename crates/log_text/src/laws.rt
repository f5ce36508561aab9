//! Laws of the definitions: what a text says, and its first fault, are one.

ghost use Rattle.std.specs.Prelude.{◌≡◌, ◌++◌, ℕ, List, All};
ghost use Rattle.dsa_terms.specs.Logs.{Log};
ghost use Rattle.refute_log.specs.Lines.{HasCites};
ghost use Rattle.log_text.specs.Faults.{IsFirstFault};
ghost use Rattle.log_text.specs.RawTexts.{raw_text};
ghost use Rattle.log_text.specs.Says.{Says};
ghost use Rattle.log_text.specs.Text.{log_text};
ghost use Rattle.log_text.specs.declared.fault.TextFault.{TextFault as Fault};
ghost use Rattle.log_text.specs.declared.raw.RawLog.{RawLog as Raw};

/// A log with a cite for each buffer of a Cases line has one text; no two such logs have the same,
/// and none is the beginning of another one's.
pub fn texts_are_prefix_free()
    ensures { (g h : Log) (r s : List ℕ) → All HasCites g.lines → All HasCites h.lines →
        log_text g ++ r ≡ log_text h ++ s → (g ≡ h) × (r ≡ s) }
{}

/// No log that is given by its numbers, whatever they are, has a text that is the beginning of
/// another one's.
pub fn raw_texts_are_prefix_free()
    ensures { (g h : Raw) (r s : List ℕ) → raw_text g ++ r ≡ raw_text h ++ s → (g ≡ h) × (r ≡ s) }
{}

/// Bytes have at most one first fault, and those that say a log have none.
pub fn first_faults_are_unique()
    ensures one { (bytes : List ℕ) (f g : Fault) →
        IsFirstFault bytes f → IsFirstFault bytes g → f ≡ g }
    ensures none { (bytes : List ℕ) (f : Fault) (raw : Raw) →
        IsFirstFault bytes f → Says bytes raw → ⊥ }
{}
