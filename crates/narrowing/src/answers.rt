//! What an answer makes of a bracket.

ghost use Rattle.std.specs.Prelude.{◌≡◌, ◌<◌, ◌≤◌};
ghost use Rattle.refute_log.specs.Decided.{IsRight};
ghost use Rattle.min_capacity.specs.Brackets.{IsBracket};
ghost use Rattle.narrowing.specs.Narrowed.{after_answer};

use dsa_model::{Instance, height};
use min_capacity::Bracket;
use refute_log::Decided;

/// The bracket after an answer at the capacity: a layout lowers the upper end to its height, a log
/// raises the lower end to one above the capacity, and Spent leaves it as it is.
pub(crate) fn with_answer(
    instance: &Instance,
    mut bracket: Bracket,
    capacity: u64,
    decided: Decided,
) -> Bracket
    requires bracket { IsBracket instance.now bracket }
    requires below { capacity < bracket.high }
    requires right { IsRight instance.now capacity decided }
    ensures { result ≡ after_answer instance.now capacity bracket decided }
{
    match decided {
        Decided::Layout(layout) => {
            bracket.high = height(instance, &layout);
            bracket.layout = layout;
        }
        Decided::Refuted(log) => {
            bracket.low = capacity + 1;
            bracket.log = Some(log);
        }
        Decided::Spent => {}
    }
    bracket
}
