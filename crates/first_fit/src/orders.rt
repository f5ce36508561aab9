//! The orders in which the starts take the buffers.

ghost use Rattle.std.specs.Prelude.{◌≡◌, IfOk};
ghost use Rattle.first_fit.specs.Orders.{numbers_in_order, order_key};

use dsa_model::{Buffer, Instance};
use std::alloc::{AllocError, Global};

/// An order of the buffers, ties to the smaller number.
#[derive(Clone, Copy)]
pub(crate) enum Order {
    SizeFalling,
    LowerRising,
    /// By size times lifetime, gaps included.
    AreaFalling,
}

/// A number that rises along the order.
fn key(order: Order, buffer: &Buffer) -> u128
    ensures { result ≡ order_key order buffer.now }
{
    match order {
        Order::SizeFalling => u128::MAX - buffer.size() as u128,
        Order::LowerRising => buffer.lower() as u128,
        Order::AreaFalling => {
            let lifetime = buffer.upper() - buffer.lower();
            u128::MAX - buffer.size() as u128 * lifetime as u128
        }
    }
}

/// All buffers in the order.
pub(crate) fn in_order(
    alloc: Global,
    instance: &Instance,
    order: Order,
) -> Result<Vec<u32>, AllocError>
    ensures { IfOk result (λ numbers. numbers.items ≡ numbers_in_order order instance.now) }
{
    let mut keys = Vec::new(alloc);
    for b in 0..instance.len() {
        keys.push((key(order, instance.buffer(b)), b))?;
    }
    keys.sort_unstable();
    keys.iter().map(|entry| entry.1).collect(alloc)
}
