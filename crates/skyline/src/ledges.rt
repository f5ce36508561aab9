//! The ledge of the last standing buffer.

ghost use Rattle.std.specs.Prelude.{◌≡◌, ◌-◌, ◌<◌, ◌≤◌, length, reverse, take, slice_index};
ghost use Rattle.dsa_model.specs.Limits.{number_limit};
ghost use Rattle.skyline.specs.Carried.{ledge_at};
ghost use Rattle.skyline.specs.Overloads.{lower};

/// The offset of the last of `depth` standing buffers, and one more for a smaller number; 0 where
/// none stands.
pub(crate) fn ledge_above(stack: &[u32], ledges: &[u64], depth: usize, b: u32) -> u64
    requires stack { depth ≤ length stack.now }
    requires ledges { depth ≤ length ledges.now }
    requires limit { 0 < depth → slice_index ledges.now (depth - 1) < number_limit }
    ensures { let last_first = reverse (take depth stack.now) in
        result ≡ ledge_at last_first (reverse (take depth ledges.now)) b }
{
    if depth == 0 {
        return 0;
    }
    let ledge = ledges[depth - 1];
    if b < stack[depth - 1] {
        ledge + 1
    } else {
        ledge
    }
}

/// The lesser of a number and one that may be there.
pub(crate) fn lesser(low: u64, least: Option<u64>) -> u64
    ensures value { Some result ≡ lower low least }
    ensures limit { result ≤ low }
{
    match least {
        None => low,
        Some(height) => if low < height { low } else { height },
    }
}
