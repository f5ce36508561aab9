//! Slots for buffers that all fit one width.

ghost use Rattle.std.specs.Prelude.{◌≡◌, IfOk, map, length, []};
ghost use Rattle.dsa_terms.specs.Claims.{number_of};
ghost use Rattle.dsa_terms.specs.Parts.{numbers};
ghost use Rattle.size_classes.specs.Slots.{AreMembers, AreTurns, slot_of, slotted};

use crate::pool::Pool;
use crate::turns::in_turn;
use dsa_model::{Instance, NoMemory};
use std::alloc::{AllocError, Global};

/// For each buffer of the instance the slot that it gets if these get theirs one after another, and
/// 0 for the others.
fn numbered_slots(alloc: Global, instance: &Instance, turns: &[u32]) -> Result<Vec<u32>, AllocError>
    requires { AreTurns instance.now turns.now }
    ensures { IfOk result (λ slots. let taken = slotted instance.now turns.now [] in
        slots.items ≡ map (number_of taken) (numbers (length instance.now))) }
{
    let mut slots = vec![in alloc; 0u32; instance.len() as usize]?;
    let mut pool = Pool::new(alloc);
    for b in turns {
        let buffer = instance.buffer(*b);
        pool.release(buffer.lower())?;
        slots[*b as usize] = pool.take(buffer.upper())?;
    }
    Ok(slots)
}

/// The slot of each member, from 0: the members get theirs by lower, ties to the smaller number,
/// each the least slot that none before it holds whose upper is above its lower. So members of one
/// slot share no moment, and there are no more slots than members that are live at one moment
/// (interval colouring).
///
/// The caller owes members that rise, are below the count of the instance's buffers and have no
/// gaps.
pub fn slots(alloc: Global, instance: &Instance, members: &[u32]) -> Result<Vec<u32>, NoMemory>
    requires { AreMembers instance.now members.now }
    ensures value { IfOk result (λ slots.
        slots.items ≡ map (slot_of instance.now members.now) members.now) }
{
    let turns = in_turn(alloc, instance, members)?;
    let numbered = numbered_slots(alloc, instance, &turns)?;
    let mut slots = Vec::with_capacity(alloc, members.len())?;
    for b in members {
        slots.push(numbered[*b as usize])?;
    }
    Ok(slots)
}
