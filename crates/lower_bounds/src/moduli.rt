//! The moduli in question.

ghost use Rattle.std.specs.Prelude.{◌↔◌, ℕ, IfOk};
ghost use Rattle.std.specs.List.{All};
ghost use Rattle.dsa_terms.specs.Bounds.{moduli};
ghost use Rattle.dsa_terms.specs.Claims.{IsIn, Rises};
ghost use Rattle.lower_bounds.specs.Stacks.{IsModulus};

use dsa_model::Instance;
use std::alloc::{AllocError, Global};

/// 1 and the alignments of the instance, rising and each once.
pub(crate) fn moduli(alloc: Global, instance: &Instance) -> Result<Vec<u64>, AllocError>
    ensures rises { IfOk result (λ found. Rises found.items) }
    ensures limits { IfOk result (λ found. All IsModulus found.items) }
    ensures same { IfOk result (λ found.
        (G : ℕ) → IsIn G found.items ↔ IsIn G (moduli instance.now)) }
{
    let mut moduli = Vec::new(alloc);
    moduli.push(1)?;
    for b in 0..instance.len() {
        moduli.push(instance.buffer(b).alignment())?;
    }
    moduli.sort_unstable();
    moduli.dedup();
    Ok(moduli)
}
