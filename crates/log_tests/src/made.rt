//! Instances and texts for tests.

use dsa_model::{BUFFER_LIMIT, Buffer, Instance};
use std::alloc::Global;

/// Buffers of these sizes and alignments, all live at moment 0.
pub(crate) fn buffers(alloc: Global, sizes: &[(u64, u64)]) -> Option<Instance> {
    let mut instance = Instance::new(alloc);
    for pair in sizes {
        let buffer = Buffer::new(alloc, 0, 1, pair.0, pair.1, &[], 0).ok()?;
        if instance.len() < BUFFER_LIMIT {
            instance.push(buffer).ok()?;
        }
    }
    Some(instance)
}

/// Two buffers of size 1 at even offsets and one of size 2, which do not fit within 4 bytes.
pub(crate) const THREE: &[(u64, u64)] = &[(1, 2), (1, 2), (2, 1)];

/// A log of them at 4.
pub(crate) const THREE_AT_4: &[u8] = b"dsalog 1 3 4\n\
over 0 3 1 : 2=3\n\
over 0 4 1 : 1=4\n\
case : 1=1 2=1 : 1>0 2>1\n\
over 0 2 2 : 0=2 1=2\n\
case : 0=0 1=0 2=0 : 0>2 1~0 2>3\n\
end 4\n";

/// Two buffers of size 1, which do not fit within 1 byte.
pub(crate) const TWO: &[(u64, u64)] = &[(1, 1), (1, 1)];

/// A log of them at 1.
pub(crate) const TWO_AT_1: &[u8] = b"dsalog 1 2 1\n\
over 0 1 1 : 1=1\n\
over 0 1 1 : 0=1\n\
case : 0=0 1=0 : 0>0 1>1\n\
end 2\n";
