//! Lows by the levels of a claim: one more than a buffer's low, and 0 where it is not in the claim.

ghost use Rattle.std.specs.Prelude.{◌≡◌, ◌+◌, ◌<◌, ◌≤◌, ◌^◌, IfNone, IfSome, Some, length};
ghost use Rattle.std.specs.List.{All};
ghost use Rattle.dsa_model.specs.Limits.{number_limit};
ghost use Rattle.skyline.specs.LowsOf.{least_low};
ghost use Rattle.skyline.specs.Overloads.{FitsFrom};

use crate::ledges::lesser;

/// The least low of the buffers that have a level, where there is one and the load on top of it
/// passes the capacity. The first low from which the load fits decides that it does not.
pub(crate) fn least_low(buffers: &[u32], levels: &[u64], load: u64, capacity: u64) -> Option<u64>
    requires in_range { All (λ b. b < length levels.now) buffers.now }
    requires limit { All (λ level. level ≤ 2 ^ 55) levels.now }
    requires load { load ≤ number_limit }
    ensures some { IfSome result (λ height. least_low levels.now buffers.now ≡ Some height) }
    ensures over { IfSome result (λ height. capacity < height + load) }
    ensures none { IfNone result (FitsFrom load capacity (least_low levels.now buffers.now)) }
    ensures limit { IfSome result (λ height. height < 2 ^ 55) }
{
    let mut least = None;
    for i in 0..buffers.len() {
        let level = levels[buffers[i] as usize];
        if level > 0 {
            let height = level - 1;
            if height + load <= capacity {
                return None;
            }
            least = Some(lesser(height, least));
        }
    }
    least
}
