//! The buffers that touch.

ghost use Rattle.std.specs.Prelude.{◌≡◌, ◌++◌, IfOk, OnOk, length, map, flat_map};
ghost use Rattle.std.specs.List.{All, filter};
ghost use Rattle.std.specs.List.Sorted.{IsNonDecreasingBy};
ghost use Rattle.dsa_terms.specs.Parts.{numbers};
ghost use Rattle.layout_picture.specs.Rectangles.{EndsWithin, rectangles as all_rectangles};
ghost use Rattle.layout_picture.specs.Sides.{AreInOrder, AreMet, AreTouching, IsSide, has_later, left_side, lower_side, pair_of, pairs_begun, right_side, upper_side};
ghost use Rattle.layout_picture.specs.declared.side.Side.{Side as Stretch};

use crate::rectangle::Rectangle;
use crate::side::{Side, begun_on, put_in_order};
use dsa_model::Instance;
use std::alloc::{AllocError, Global};

/// Two buffers that touch, by their numbers.
#[derive(Clone, Copy)]
pub(crate) struct Pair {
    pub(crate) later: u32,
    pub(crate) earlier: u32,
}

/// Sides along which buffers end, and those along which others begin.
#[derive(Drop)]
struct Facing {
    ends: Vec<Side>,
    begins: Vec<Side>,
}

/// The upper sides of the rectangles, and the lower ones.
fn stacked(alloc: Global, rectangles: &[Rectangle]) -> Result<Facing, AllocError>
    ensures ends { IfOk result (λ sides. sides.ends.items ≡ map upper_side rectangles.now) }
    ensures begins { IfOk result (λ sides. sides.begins.items ≡ map lower_side rectangles.now) }
{
    let mut ends = Vec::with_capacity(alloc, rectangles.len())?;
    let mut begins = Vec::with_capacity(alloc, rectangles.len())?;
    for rectangle in rectangles {
        let from = rectangle.first as u64;
        let to = rectangle.end as u64;
        let buffer = rectangle.buffer;
        ends.push(Side {
            line: rectangle.top,
            from,
            to,
            buffer,
        })?;
        begins.push(Side {
            line: rectangle.place,
            from,
            to,
            buffer,
        })?;
    }
    Ok(Facing { ends, begins })
}

/// The sides along which the lifetimes end, and those along which they begin.
fn following(alloc: Global, instance: &Instance, offsets: &[u64]) -> Result<Facing, AllocError>
    requires { EndsWithin instance.now offsets.now }
    ensures ends { IfOk result (λ sides. sides.ends.items
        ≡ map (right_side instance.now offsets.now) (numbers (length instance.now))) }
    ensures begins { IfOk result (λ sides. sides.begins.items
        ≡ map (left_side instance.now offsets.now) (numbers (length instance.now))) }
{
    let mut ends = Vec::with_capacity(alloc, instance.len() as usize)?;
    let mut begins = Vec::with_capacity(alloc, instance.len() as usize)?;
    for b in 0..instance.len() {
        let buffer = instance.buffer(b);
        let from = offsets[b as usize];
        let to = from + buffer.size();
        ends.push(Side {
            line: buffer.upper(),
            from,
            to,
            buffer: b,
        })?;
        begins.push(Side {
            line: buffer.lower(),
            from,
            to,
            buffer: b,
        })?;
    }
    Ok(Facing { ends, begins })
}

/// The pair of two buffers.
fn pair_of(b: u32, c: u32) -> Pair
    ensures { result ≡ pair_of b c }
{
    Pair {
        later: b.max(c),
        earlier: b.min(c),
    }
}

/// Puts the pairs of a buffer with the buffers of the sides.
fn push_pairs(pairs: &mut Vec<Pair>, buffer: u32, sides: &[Side]) -> Result<(), AllocError>
    ensures { OnOk result (pairs.new.items
        ≡ pairs.old.items ++ map (λ (s : Stretch). pair_of buffer s.buffer) sides.now) }
{
    for side in sides {
        pairs.push(pair_of(buffer, side.buffer))?;
    }
    Ok(())
}

/// Puts the pairs of each side's buffer with the buffers of the others, which are in order, that
/// begin on it.
fn push_begun(pairs: &mut Vec<Pair>, sides: &[Side], others: &[Side]) -> Result<(), AllocError>
    requires some { All IsSide sides.now }
    requires order { AreInOrder others.now }
    ensures { OnOk result (pairs.new.items ≡ pairs.old.items
        ++ flat_map (pairs_begun others.now) sides.now) }
{
    for side in sides {
        push_pairs(pairs, side.buffer, begun_on(others, side))?;
    }
    Ok(())
}

/// Puts the pairs of the buffers whose sides meet.
fn push_meeting(pairs: &mut Vec<Pair>, mut sides: Facing) -> Result<(), AllocError>
    requires ends { All IsSide sides.ends.items }
    requires begins { All IsSide sides.begins.items }
    ensures { OnOk result (AreMet sides.ends.items sides.begins.items pairs.old.items
        pairs.new.items) }
{
    put_in_order(&mut sides.ends);
    put_in_order(&mut sides.begins);
    push_begun(pairs, &sides.ends, &sides.begins)?;
    push_begun(pairs, &sides.begins, &sides.ends)?;
    Ok(())
}

/// All pairs of buffers that touch, in order of the later one.
///
/// Each side looks up those that begin on it, so that pairs which do not touch cost nothing. In a
/// layout at most one of the buffers that lie over a place is live in a column, and each is live in
/// some column: the pairs are at most some columns times buffers.
pub(crate) fn touching(
    alloc: Global,
    instance: &Instance,
    offsets: &[u64],
    rectangles: &[Rectangle],
) -> Result<Vec<Pair>, AllocError>
    requires ends { EndsWithin instance.now offsets.now }
    requires rectangles { rectangles.now ≡ all_rectangles instance.now offsets.now }
    ensures touching { IfOk result (λ pairs. AreTouching instance.now offsets.now pairs.items) }
    ensures order { IfOk result (λ pairs. IsNonDecreasingBy (λ p. p.later) pairs.items) }
{
    let mut pairs = Vec::with_capacity(alloc, instance.len() as usize)?;
    push_meeting(&mut pairs, stacked(alloc, rectangles)?)?;
    push_meeting(&mut pairs, following(alloc, instance, offsets)?)?;
    pairs.sort_unstable_by_key(|pair| pair.later);
    Ok(pairs)
}

/// Those of the pairs, which are in order, of which the later buffer is b.
pub(crate) fn pairs_of(pairs: &[Pair], b: u32) -> &[Pair]
    requires { IsNonDecreasingBy (λ p. p.later) pairs.now }
    ensures { result.now ≡ filter (has_later b) pairs.now }
{
    let first = pairs.partition_point(|pair| pair.later < b);
    let end = pairs.partition_point(|pair| pair.later <= b);
    &pairs[first..end]
}
