//! The room that a skyline takes when it is made.

ghost use Rattle.std.specs.Prelude.{◌≡◌, ℕ, ◌<◌, ◌≤◌, ◌↔◌, IfOk, true, false, length, slice_index, slice_index_or, vec_len};
ghost use Rattle.std.specs.List.{filter, sum_by};
ghost use Rattle.dsa_terms.specs.Buffers.{buffer};
ghost use Rattle.lifetime.specs.SectionList.{AreSectionsOf, count_of, members_of};
ghost use Rattle.std.specs.List.{All};
ghost use Rattle.dsa_terms.specs.Claims.{IsIn};
ghost use Rattle.dsa_model.specs.Buffer.{buffer_limit};
ghost use Rattle.lifetime.specs.SectionList.{sections_of};

use dsa_model::Instance;
use lifetime::Sections;
use std::alloc::{AllocError, Global};

/// For each number below `count` whether it is a member.
pub(crate) fn mark(alloc: Global, count: usize, members: &[u32]) -> Result<Vec<bool>, AllocError>
    requires { All (λ b. b < count) members.now }
    ensures count { IfOk result (λ v. length v.items ≡ count) }
    ensures marks { IfOk result (λ v. (c : ℕ) → c < count →
        (slice_index_or v.items c false ≡ true) ↔ IsIn c members.now) }
{
    let mut marks = vec![in alloc; false; count]?;
    for i in 0..members.len() {
        marks[members[i] as usize] = true;
    }
    Ok(marks)
}

/// How many sections the buffer has, where it is a member.
fn room_for(sections: &Sections, b: u32, is_member: bool) -> usize
    requires { b < length sections.now.of_buffers }
    ensures { is_member ≡ true → result ≡ length (sections_of sections.now b) }
{
    if is_member {
        sections.sections_of(b).len()
    } else {
        0
    }
}

/// For each member as many numbers as it has sections, and none for other buffers.
pub(crate) fn make_rows(
    alloc: Global,
    sections: &Sections,
    members: &[bool],
) -> Result<Vec<Vec<u64>>, AllocError>
    requires count { length members.now ≤ length sections.now.of_buffers }
    requires few { length members.now ≤ buffer_limit }
    ensures count { IfOk result (λ v. length v.items ≡ length members.now) }
    ensures rooms { IfOk result (λ v. (b : ℕ) (d : _) → b < length members.now →
        slice_index_or members.now b false ≡ true →
        vec_len (slice_index_or v.items b d) ≡ length (sections_of sections.now b)) }
{
    let mut rows = Vec::new(alloc);
    for b in 0..members.len() {
        let room = room_for(sections, b as u32, members[b]);
        rows.push(vec![in alloc; 0u64; room]?)?;
    }
    Ok(rows)
}

/// The sum of the sizes of the members that are free.
pub(crate) fn load_of(instance: &Instance, members: &[u32], free: &[bool]) -> u64
    requires in_range { All (λ b. b < length instance.now) members.now }
    requires count { length free.now ≡ length instance.now }
    requires few { length members.now ≤ buffer_limit }
    ensures { result ≡ sum_by (λ b. (buffer instance.now b).size)
        (filter (λ b. slice_index_or free.now b false) members.now) }
{
    let mut load = 0;
    for i in 0..members.len() {
        let b = members[i];
        if free[b as usize] {
            load += instance.buffer(b).size();
        }
    }
    load
}

/// For each section the sum of the sizes of its free members.
pub(crate) fn first_loads(
    alloc: Global,
    instance: &Instance,
    sections: &Sections,
    free: &[bool],
) -> Result<Vec<u64>, AllocError>
    requires sections { AreSectionsOf instance.now sections.now }
    requires count { length free.now ≡ length instance.now }
    ensures count { IfOk result (λ v. length v.items ≡ count_of sections.now) }
    ensures loads { IfOk result (λ v. (s : ℕ) → s < count_of sections.now →
        slice_index v.items s ≡ sum_by (λ b. (buffer instance.now b).size)
        (filter (λ b. slice_index_or free.now b false) (members_of sections.now s))) }
{
    let _count = instance.len();
    let mut loads = Vec::new(alloc);
    for s in 0..sections.count() {
        loads.push(load_of(instance, sections.members(s), free))?;
    }
    Ok(loads)
}
