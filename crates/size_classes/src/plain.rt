//! Whether each buffer can go to any offset and holds its storage throughout its lifetime.

ghost use Rattle.std.specs.Prelude.{◌≡◌};
ghost use Rattle.std.specs.List.{All};
ghost use Rattle.dsa_model.specs.Buffer.{IsBuffer};
ghost use Rattle.size_classes.specs.Plain.{first_rough, is_rough};

use dsa_model::{Buffer, Instance};

/// Whether the buffer has a gap, an alignment above 1 or a lowest above 0.
fn is_rough(buffer: &Buffer) -> bool
    ensures { result ≡ is_rough buffer.now }
{
    !buffer.gaps().is_empty() || buffer.alignment() > 1 || buffer.lowest() > 0
}

/// The least buffer that has a gap, an alignment above 1 or a lowest above 0.
pub(crate) fn first_rough(instance: &Instance) -> Option<u32>
    ensures value { result ≡ first_rough instance.now }
    ensures buffers { All IsBuffer instance.now }
{
    for b in 0..instance.len() {
        if is_rough(instance.buffer(b)) {
            return Some(b);
        }
    }
    None
}
