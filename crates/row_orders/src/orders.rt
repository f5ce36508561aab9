//! All buffers of an instance in an order.

ghost use Rattle.std.specs.Prelude.{◌≡◌, ◌^◌, ◌<◌, ◌≤◌, ℕ, length, map, IfOk};
ghost use Rattle.dsa_terms.specs.Buffers.{buffer as buffer_at};
ghost use Rattle.first_fit.specs.Rules.{IsOrderOf};
ghost use Rattle.row_orders.specs.Orders.{met, measure, numbers_in};
ghost use Rattle.row_orders.specs.Carried.{HasEachOnce};

use dsa_model::{Instance, NoMemory};
use std::alloc::{AllocError, Global};

/// An order of the buffers of an instance. Of equals the one of smaller number comes first.
#[derive(Clone, Copy)]
pub enum Order {
    /// As they stand in the instance.
    File,
    /// By size times lifetime, gaps included, falling.
    Area,
    /// By the sum of the sizes of the buffers that share a moment with it, itself among them,
    /// falling.
    Met,
    /// By lifetime, gaps included, falling.
    Lifetime,
    /// By `upper` falling.
    Upper,
}

/// The sum of the sizes of the buffers that share a moment with `b`, itself among them, in bytes.
fn met(instance: &Instance, b: u32) -> u64
    requires { b < length instance.now }
    ensures value { result ≡ met instance.now (buffer_at instance.now b) }
    ensures limit { result ≤ 2 ^ 52 }
{
    let mut sum = 0;
    for c in 0..instance.len() {
        if instance.do_share(b, c) {
            sum += instance.buffer(c).size();
        }
    }
    sum
}

/// The number that falls along the order.
fn measure(instance: &Instance, order: Order, b: u32) -> u128
    requires { b < length instance.now }
    ensures value { result ≡ measure order instance.now (buffer_at instance.now b) }
    ensures limit { result ≤ 2 ^ 102 }
{
    let buffer = instance.buffer(b);
    match order {
        Order::File => 0,
        Order::Area => {
            let lifetime = buffer.upper() - buffer.lower();
            buffer.size() as u128 * lifetime as u128
        }
        Order::Met => met(instance, b) as u128,
        Order::Lifetime => (buffer.upper() - buffer.lower()) as u128,
        Order::Upper => buffer.upper() as u128,
    }
}

/// The numbers that stand beside the keys.
fn numbers_beside(alloc: Global, keys: &[(u128, u32)]) -> Result<Vec<u32>, AllocError>
    ensures { IfOk result (λ numbers. numbers.items ≡ map (λ (e : ℕ × ℕ). e.1) keys.now) }
{
    keys.iter().map(|entry| entry.1).collect(alloc)
}

/// The numbers of all buffers in the order.
pub fn in_order(alloc: Global, instance: &Instance, order: Order) -> Result<Vec<u32>, NoMemory>
    ensures value { IfOk result (λ numbers. numbers.items ≡ numbers_in order instance.now) }
    ensures order { IfOk result (λ numbers. IsOrderOf instance.now numbers.items) }
    ensures once { IfOk result (λ numbers. HasEachOnce numbers.items) }
{
    let mut keys = Vec::new(alloc);
    for b in 0..instance.len() {
        keys.push((u128::MAX - measure(instance, order, b), b))?;
    }
    keys.sort_unstable();
    let numbers = numbers_beside(alloc, &keys)?;
    Ok(numbers)
}
