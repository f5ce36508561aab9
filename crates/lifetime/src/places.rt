//! For each buffer the places of its sections.

ghost use Rattle.std.specs.Prelude.{◌≡◌, ◌<◌, ◌^◌, [], length, map, IfOk, OnOk};
ghost use Rattle.std.specs.List.{All};
ghost use Rattle.dsa_terms.specs.Claims.{Rises};
ghost use Rattle.dsa_terms.specs.Parts.{numbers};
ghost use Rattle.dsa_model.specs.Lists.{items_of};
ghost use Rattle.lifetime.specs.Edges.{places_of};
ghost use Rattle.lifetime.specs.Places.{AreMembersBelow, ends_with};
ghost use Rattle.lifetime.specs.Views.{section_of};

use crate::section_list::Section;
use std::alloc::{AllocError, Global};

/// How many sections have each buffer.
fn entries(alloc: Global, sections: &[Section], count: usize) -> Result<Vec<usize>, AllocError>
    requires { AreMembersBelow count (map section_of sections.now) }
    ensures { IfOk result (λ entries. length entries.items ≡ count) }
{
    let mut entries = vec![in alloc; 0usize; count]?;
    for section in sections {
        for b in &section.members {
            entries[*b as usize] = entries[*b as usize].saturating_add(1);
        }
    }
    Ok(entries)
}

/// An empty list for each buffer, with room for the places of its sections.
fn empty_lists(
    alloc: Global,
    sections: &[Section],
    count: usize,
) -> Result<Vec<Vec<u32>>, AllocError>
    requires { AreMembersBelow count (map section_of sections.now) }
    ensures { IfOk result (λ lists. map items_of lists.items ≡ map (λ _. []) (numbers count)) }
{
    let entries = entries(alloc, sections, count)?;
    let mut lists = Vec::with_capacity(alloc, count)?;
    for places in &entries {
        lists.push(Vec::with_capacity(alloc, *places)?)?;
    }
    Ok(lists)
}

/// Puts s last in the list of each member.
fn note(lists: &mut [Vec<u32>], members: &[u32], s: u32) -> Result<(), AllocError>
    requires in_range { All (λ b. b < length lists.old) members.now }
    requires rises { Rises members.now }
    ensures { OnOk result
        (map items_of lists.new ≡ ends_with members.now s (map items_of lists.old)) }
{
    for b in members {
        lists[*b as usize].push(s)?;
    }
    Ok(())
}

/// For each buffer below the count the places of the sections that have it.
pub(crate) fn places(
    alloc: Global,
    sections: &[Section],
    count: usize,
) -> Result<Vec<Vec<u32>>, AllocError>
    requires few { length sections.now < 2 ^ 32 }
    requires members { AreMembersBelow count (map section_of sections.now) }
    ensures { IfOk result (λ lists.
        map items_of lists.items ≡ map (places_of (map section_of sections.now)) (numbers count)) }
{
    let mut lists = empty_lists(alloc, sections, count)?;
    for s in 0..sections.len() {
        note(&mut lists, &sections[s].members, s as u32)?;
    }
    Ok(lists)
}
