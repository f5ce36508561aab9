//! Laws of what the bytes of a log say, in either version.

ghost use Rattle.std.specs.Prelude.{◌≡◌, ◌↔◌, ◌⊎◌, ◌≤◌, ◌++◌, ℕ, List, All, length, map};
ghost use Rattle.dsa_terms.specs.Claims.{Claim, Entry, IsIn, Rises, buffers_of};
ghost use Rattle.dsa_terms.specs.Logs.{Log};
ghost use Rattle.dsa_model.specs.Limits.{number_limit};
ghost use Rattle.log_text.specs.Changes.{Change, DoesChange, Puts, buffer_of, carried_out, difference};
ghost use Rattle.log_text.specs.RawTexts.{HasCite, IsTextOf};
ghost use Rattle.log_text.specs.RawLogs.{IsRawKept};
ghost use Rattle.log_text.specs.Says.{Says, SaysBy};
ghost use Rattle.log_text.specs.Spellings.{raw_text2};
ghost use Rattle.log_text.specs.declared.raw.RawLog.{RawLog as Raw};

/// Bytes say at most one log, and no bytes that say one are the beginning of others that say one.
pub fn bytes_say_one_log()
    ensures { (x y : List ℕ) (g h : Raw) (r s : List ℕ) → Says x g → Says y h →
        x ++ r ≡ y ++ s → (g ≡ h) × (x ≡ y) × (r ≡ s) }
{}

/// In a log that bytes say no claim is empty, claims and cites rise, and each number is within its
/// limit, those of claims that are spelled as differences too.
pub fn what_is_said_is_kept()
    ensures { (x : List ℕ) (g : Raw) → Says x g → IsRawKept g }
{}

/// A text of version 1 is a log's one text exactly where it says the log as version 2 is read.
pub fn the_versions_agree()
    ensures { (x : List ℕ) (g : Raw) → SaysBy 1 x g ↔ IsTextOf x g }
{}

/// The text of version 2 says its log.
pub fn second_texts_say_their_logs()
    ensures { (g : Raw) → IsRawKept g → All HasCite g.lines → length g.lines ≤ number_limit →
        Says (raw_text2 g) g }
{}

/// What changes make of a claim, buffer by buffer: an entry is put there, or it was there and no
/// change is of its buffer. What differs, carried out, gives the other claim.
pub fn changes_are_carried_out()
    ensures entries { (l : Claim) (cs : List Change) (e : Entry) → Rises (buffers_of l) →
        Rises (map buffer_of cs) →
        IsIn e (carried_out l cs) ↔
        (IsIn (Puts e) cs ⊎ (IsIn e l × (IsIn e.0 (map buffer_of cs) → ⊥))) }
    ensures back { (l m : Claim) → Rises (buffers_of l) → Rises (buffers_of m) →
        carried_out l (difference l m) ≡ m }
{}

/// A difference is unique: changes that rise and that each change the claim are told by what they
/// make of it.
pub fn differences_are_unique()
    ensures { (l : Claim) (cs ds : List Change) → Rises (buffers_of l) →
        Rises (map buffer_of cs) → Rises (map buffer_of ds) →
        All (DoesChange l) cs → All (DoesChange l) ds →
        carried_out l cs ≡ carried_out l ds → cs ≡ ds }
{}
