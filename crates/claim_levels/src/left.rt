//! The buffers that have a level.

ghost use Rattle.std.specs.Prelude.{◌≡◌, ◌<◌, ◌≤◌, ℕ, false, true, IfOk, OnErr, OnOk, length, slice_index_or};
ghost use Rattle.dsa_terms.specs.Claims.{Rises};
ghost use Rattle.dsa_model.specs.Buffer.{buffer_limit};
ghost use Rattle.lifetime.specs.Switching.{IsSwitched};
ghost use Rattle.claim_levels.specs.Levels.{AreLeft};

use dsa_model::NoMemory;
use std::alloc::Global;

/// The buffers that have a level, in rising order.
pub(crate) fn left_of(alloc: Global, levels: &[u64]) -> Result<Vec<u32>, NoMemory>
    requires { length levels.now ≤ buffer_limit }
    ensures { IfOk result (λ left. AreLeft levels.now left.items) }
{
    let mut left = Vec::new(alloc);
    for b in 0..levels.len() {
        if levels[b] > 0 {
            left.push(b as u32)?;
        }
    }
    Ok(left)
}

/// Takes the buffer out of the rising list, and guesses where it belongs: no clause hangs on the
/// place.
pub(crate) fn take_out(left: &mut Vec<u32>, b: u32) -> usize
    requires { Rises left.old.items }
    ensures { IsSwitched left.old.items b false left.new.items }
{
    match left.binary_search(&b) {
        Ok(place) => {
            left.remove(place);
            place
        }
        Err(_) => 0,
    }
}

/// Yes only where the rising list rises still with the buffer at the place: its neighbours alone
/// are looked at.
fn belongs_at(left: &[u32], b: u32, place: usize) -> bool
    requires { Rises left.now }
    ensures within { result ≡ true → place ≤ length left.now }
    ensures less { result ≡ true → (k : ℕ) → k < length left.now → k < place →
        slice_index_or left.now k 0 < b }
    ensures greater { result ≡ true → (k : ℕ) → k < length left.now → place ≤ k →
        b < slice_index_or left.now k 0 }
{
    let len = left.len();
    if place > len || (0 < place && left[place - 1] >= b) {
        return false;
    }
    place == len || b < left[place]
}

/// Puts the buffer into the rising list: at the place that is guessed, if it belongs there, and
/// else where a search finds its place.
pub(crate) fn put_in(left: &mut Vec<u32>, b: u32, guess: usize) -> Result<(), NoMemory>
    requires { Rises left.old.items }
    ensures switched { OnOk result (IsSwitched left.old.items b true left.new.items) }
    ensures unchanged { OnErr result (left.new.items ≡ left.old.items) }
{
    if belongs_at(left, b, guess) {
        return Ok(left.insert(guess, b)?);
    }
    match left.binary_search(&b) {
        Ok(_) => Ok(()),
        Err(place) => Ok(left.insert(place, b)?),
    }
}
