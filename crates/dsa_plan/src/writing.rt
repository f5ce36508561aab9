//! The layout that is found, written for the caller.

ghost use Rattle.std.specs.Prelude.{◌≡◌, IfOk, length};
ghost use Rattle.min_capacity.specs.Brackets.{bracket_of};
ghost use Rattle.dsa_plan.specs.Answers.{least_found, offsets_found};

use crate::answers::LeastAnswer;
use dsa_model::NoMemory;
use min_capacity::Least;

/// What is answered of what is found of the least capacity; its layout is written.
pub(crate) fn written(found: Result<Least, NoMemory>, offsets: &mut [u64]) -> LeastAnswer
    requires { IfOk found (λ f. length (bracket_of f).layout.items ≡ length offsets.old) }
    ensures value { result ≡ least_found found }
    ensures written { offsets.new ≡ offsets_found found offsets.old }
{
    match found {
        Ok(Least::Exact(bracket)) => {
            offsets.copy_from_slice(&bracket.layout);
            LeastAnswer::Least {
                capacity: bracket.high,
            }
        }
        Ok(Least::Open(bracket)) => {
            offsets.copy_from_slice(&bracket.layout);
            LeastAnswer::Open {
                low: bracket.low,
                high: bracket.high,
            }
        }
        Err(NoMemory) => LeastAnswer::NoMemory,
    }
}
