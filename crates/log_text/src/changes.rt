//! The changes of a difference: carrying them out, finding them, and reading them.

ghost use Rattle.std.specs.Prelude.{◌≡◌, ◌↔◌, ◌++◌, ◌∷◌, [], ◌≤◌, ◌<◌, IfOk, OnOk, IfNone, IfSome, IsTrue, MatchBool, All, drop, length, map, true, false, ◌≢◌, ◌⊎◌, slice_index_or};
ghost use Rattle.dsa_terms.specs.Claims.{Rises, buffers_of};
ghost use Rattle.log_text.specs.Changes.{AreChanges, DoesChange, above, below, buffer_of, carried_out, difference as difference_of, left_by};
ghost use Rattle.dsa_model.specs.Fails.{UnlessNoMemory};
ghost use Rattle.log_text.specs.Digits.{Stops};
ghost use Rattle.log_text.specs.Edits.{AreChangesRead, EndsChanges, HasNoChanges, capped_change, change_value};
ghost use Rattle.log_text.specs.Reading.{HasNoItem, IsItemRead};
ghost use Rattle.log_text.specs.Spellings.{change_text};

use crate::cursor::Cursor;
use crate::items::{NoForm, read_pair};
use dsa_model::Fail;
use std::alloc::{AllocError, Global};

/// How many changes a difference has room for from the start.
const CHANGES: usize = 16;

/// A change of a claim as a text says it.
#[derive(Clone, Copy)]
pub(crate) enum Edit {
    /// The buffer gets that bound.
    Puts(u64, u64),
    /// The buffer is dropped.
    Drops(u64),
}

/// The buffer that is changed.
pub(crate) fn changed_buffer(change: Edit) -> u64
    ensures { result ≡ buffer_of (change_value change) }
{
    match change {
        Edit::Puts(b, _) => b,
        Edit::Drops(b) => b,
    }
}

/// Appends what the change leaves at its buffer.
fn put(pairs: &mut Vec<(u64, u64)>, change: Edit) -> Result<(), AllocError>
    ensures { OnOk result (pairs.new.items ≡ pairs.old.items ++ left_by (change_value change)) }
{
    match change {
        Edit::Puts(b, bound) => {
            pairs.push((b, bound))?;
            Ok(())
        }
        Edit::Drops(_) => Ok(()),
    }
}

/// The place past the buffer, which is at that place or not in the claim.
fn past(base: &[(u64, u64)], place: usize, b: u64) -> usize
    requires rises { Rises (buffers_of base.now) }
    requires within { place ≤ length base.now }
    requires reached { below b (drop place base.now) ≡ [] }
    ensures rest { drop result base.now ≡ above b (drop place base.now) }
    ensures within { result ≤ length base.now }
    ensures forth { place ≤ result }
{
    if place == base.len() {
        return place;
    }
    if base[place].0 == b { place + 1 } else { place }
}

/// Whether the change changes the claim of that buffer alone.
fn changes_pair(b: u64, bound: u64, change: Edit) -> bool
    ensures { IsTrue result ↔ DoesChange ((b, bound) ∷ []) (change_value change) }
{
    match change {
        Edit::Puts(c, new) => is_other(b, bound, c, new),
        Edit::Drops(c) => b == c,
    }
}

/// Whether the two pairs differ.
fn is_other(b: u64, bound: u64, c: u64, new: u64) -> bool
    ensures { IsTrue result ↔ ((b ≢ c) ⊎ (bound ≢ new)) }
{
    if b != c {
        return true;
    }
    bound != new
}

/// Whether the change puts a bound.
fn is_put(change: Edit) -> bool
    ensures { IsTrue result ↔ DoesChange [] (change_value change) }
{
    match change {
        Edit::Puts(..) => true,
        Edit::Drops(_) => false,
    }
}

/// Whether the change changes what is left of the claim from that place on, where its buffer would
/// come first.
fn does_change(base: &[(u64, u64)], place: usize, change: Edit) -> bool
    requires rises { Rises (buffers_of base.now) }
    requires within { place ≤ length base.now }
    requires reached { below (buffer_of (change_value change)) (drop place base.now) ≡ [] }
    ensures { IsTrue result ↔ DoesChange (drop place base.now) (change_value change) }
{
    if place == base.len() {
        return is_put(change);
    }
    changes_pair(base[place].0, base[place].1, change)
}

/// Whether the buffer at that place is below b.
fn stays(base: &[(u64, u64)], place: usize, b: u64) -> bool
    requires rises { Rises (buffers_of base.now) }
    requires within { place ≤ length base.now }
    ensures stays { result ≡ true →
        (place < length base.now) × ((slice_index_or base.now place (0, 0)).0 < b) }
    ensures reached { result ≡ false → below b (drop place base.now) ≡ [] }
{
    if place == base.len() {
        return false;
    }
    base[place].0 < b
}

/// Carries out the changes of a claim, in one pass over both, and leaves in the room what they
/// give: where it answers false a change changes nothing, or no buffer is left.
pub(crate) fn carry_out(
    room: &mut Vec<(u64, u64)>,
    base: &[(u64, u64)],
    changes: &[Edit],
) -> Result<bool, AllocError>
    requires base { Rises (buffers_of base.now) }
    requires changes { Rises (map buffer_of (map change_value changes.now)) }
    ensures { let cs = map change_value changes.now in IfOk result (λ r. MatchBool r
        ((room.new.items ≡ carried_out base.now cs) × AreChanges base.now cs)
        (AreChanges base.now cs → ⊥)) }
{
    room.clear();
    let mut place = 0;
    let mut next = 0;
    while next < changes.len() {
        let change = changes[next];
        let b = changed_buffer(change);
        if stays(base, place, b) {
            room.push(base[place])?;
            place += 1;
            continue;
        }
        if !does_change(base, place, change) {
            return Ok(false);
        }
        put(room, change)?;
        place = past(base, place, b);
        next += 1;
    }
    room.extend_from_slice(&base[place..])?;
    Ok(!room.is_empty())
}

/// The changes that lead from one claim to the other, in one pass over both.
pub(crate) fn difference(
    alloc: Global,
    base: &[(u64, u64)],
    claim: &[(u64, u64)],
) -> Result<Vec<Edit>, AllocError>
    requires { Rises (buffers_of base.now) }
    ensures { IfOk result
        (λ edits. map change_value edits.items ≡ difference_of base.now claim.now) }
{
    let mut changes = Vec::new(alloc);
    let mut place = 0;
    let mut next = 0;
    while next < claim.len() {
        let (b, bound) = claim[next];
        if stays(base, place, b) {
            changes.push(Edit::Drops(base[place].0))?;
            place += 1;
            continue;
        }
        let change = Edit::Puts(b, bound);
        if does_change(base, place, change) {
            changes.push(change)?;
        }
        place = past(base, place, b);
        next += 1;
    }
    for k in place..base.len() {
        changes.push(Edit::Drops(base[k].0))?;
    }
    Ok(changes)
}

/// Reads a change: a buffer and its bound, or a dash and a buffer.
fn read_change(cursor: &mut Cursor) -> Option<Edit>
    ensures some { IfSome result
        (λ c. IsItemRead change_text capped_change cursor.old (change_value c) cursor.new) }
    ensures none { IfNone result (HasNoItem change_text cursor.old) }
{
    if cursor.take(b"-") {
        let b = cursor.capped_number()?;
        return Some(Edit::Drops(b));
    }
    let pair = read_pair(cursor)?;
    Some(Edit::Puts(pair.0, pair.1))
}

/// Reads changes, each after a space, and these bytes after them. Their numbers are of 64 bits, as
/// `cap` gives them. No digit comes first.
pub(crate) fn read_changes(
    alloc: Global,
    cursor: &mut Cursor,
    end: &[u8],
) -> Result<Vec<Edit>, Fail<NoForm>>
    requires ends { EndsChanges end.now }
    requires stops { Stops cursor.old }
    ensures { UnlessNoMemory result
        (λ v. AreChangesRead end.now cursor.old (map change_value v.items) cursor.new)
        (λ _. HasNoChanges end.now cursor.old) }
{
    let mut changes = Vec::with_capacity(alloc, CHANGES)?;
    while !cursor.take(end) {
        if !cursor.take(b" ") {
            return Err(Fail::Fault(NoForm));
        }
        let Some(change) = read_change(cursor) else {
            return Err(Fail::Fault(NoForm));
        };
        changes.push(change)?;
    }
    Ok(changes)
}
