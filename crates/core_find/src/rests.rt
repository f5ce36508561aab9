//! Layouts of the others of each member.

ghost use Rattle.std.specs.Prelude.{◌≡◌, ◌<◌, ◌≤◌, ◌-◌, List, ℕ, All, length, map};
ghost use Rattle.std.specs.List.{remove};
ghost use Rattle.core_find.specs.Found.{rests_of};

/// Takes the member at a place out of the layouts, each of which lacks an earlier one, so that it
/// stands there one place before.
pub(crate) fn leave_out(rests: &mut [Vec<u64>], place: usize)
    requires earlier { length rests.old ≤ place }
    requires there { All (λ (rest : List ℕ). place ≤ length rest) (rests_of rests.old) }
    ensures { rests_of rests.new
        ≡ map (λ (rest : List ℕ). remove rest (place - 1)) (rests_of rests.old) }
{
    for n in 0..rests.len() {
        rests[n].remove(place - 1);
    }
}
