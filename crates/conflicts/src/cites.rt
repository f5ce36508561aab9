//! Cites that need no line.

ghost use Rattle.std.specs.Prelude.{◌≡◌, ◌<◌, true, [], length, map, option_map, IfOk, MatchOption, List};
ghost use Rattle.std.specs.List.{AllZip};
ghost use Rattle.dsa_terms.specs.Claims.{Entry, IsIn};
ghost use Rattle.dsa_terms.specs.Lean.{CitesOwn};
ghost use Rattle.dsa_terms.specs.Logs.{IsLegalCite, Line, Twin, is_twin};
ghost use Rattle.canonical_order.specs.Claims.{HasBuffer, entry_of};
ghost use Rattle.canonical_order.specs.Stands.{Stands};
ghost use Rattle.refute_log.specs.Lines.{cite_value};
ghost use Rattle.conflicts.specs.Eased.{IsOwnOf};
ghost use Rattle.conflicts.specs.Ends.{IsLeastEnd, end_of};

use canonical_order::{LowTable, Lows};
use dsa_model::NoMemory;
use prune_rules::{is_below, is_twin};
use refute_log::{Cite, Cites};
use std::alloc::Global;

/// Where the buffer ends at its low.
pub(crate) fn end(lows: &LowTable, b: u32) -> u64
    requires { HasBuffer lows.now.claim.now b }
    ensures value { result ≡ end_of lows.now.instance.now (entry_of lows.now.claim.now b) }
    ensures stands { Stands lows.now.instance.now lows.now.claim.now }
{
    lows.low(b) + lows.instance.buffer(b).size()
}

/// The buffer of the claim that ends lowest.
fn least_end(lows: &LowTable) -> u32
    requires { 0 < length lows.now.claim.now }
    ensures least { IsLeastEnd lows.now.instance.now lows.now.claim.now result }
    ensures stands { Stands lows.now.instance.now lows.now.claim.now }
{
    let pairs = lows.claim.pairs();
    let mut least = pairs[0].0;
    let mut lowest = end(lows, least);
    for pair in pairs {
        let other = end(lows, pair.0);
        if other < lowest {
            least = pair.0;
            lowest = other;
        }
    }
    least
}

/// A twin that stands before b, and none exactly where there is none.
fn twin_of(lows: &LowTable, b: u32) -> Option<u32>
    requires { HasBuffer lows.now.claim.now b }
    ensures { let I = lows.now.instance.now in let l = lows.now.claim.now in
        MatchOption result
        ((f : Entry) → IsIn f l → is_twin I f (entry_of l b) ≡ true → ⊥)
        (λ c. IsLegalCite I [] l (entry_of l b) (Twin c)) }
{
    for pair in lows.claim.pairs() {
        if pair.0 >= b {
            return None;
        }
        if is_twin(lows, b, pair.0) {
            return Some(pair.0);
        }
    }
    None
}

/// A cite of another buffer of the claim that is legal for b, below or else twin, and none exactly
/// where there is none. Another buffer ends below b exactly where the one that ends lowest does.
fn own_cite(lows: &LowTable, least: u32, b: u32) -> Option<Cite>
    requires stands { Stands lows.now.instance.now lows.now.claim.now }
    requires b_in { HasBuffer lows.now.claim.now b }
    requires least { IsLeastEnd lows.now.instance.now lows.now.claim.now least }
    ensures { let l = lows.now.claim.now in
        IsOwnOf lows.now.instance.now l (entry_of l b) (option_map cite_value result) }
{
    if is_below(lows, b, least) {
        return Some(Cite::Below(least));
    }
    match twin_of(lows, b) {
        Some(c) => Some(Cite::Twin(c)),
        None => None,
    }
}

/// The cite of another buffer wherever one is legal, and else the given one.
fn eased_cite(lows: &LowTable, least: u32, b: u32, given: Cite) -> Cite
    requires stands { Stands lows.now.instance.now lows.now.claim.now }
    requires b_in { HasBuffer lows.now.claim.now b }
    requires least { IsLeastEnd lows.now.instance.now lows.now.claim.now least }
    ensures own { let l = lows.now.claim.now in
        CitesOwn lows.now.instance.now l (entry_of l b) (cite_value result) }
    ensures legal { let I = lows.now.instance.now in let l = lows.now.claim.now in
        (earlier : List Line) →
        IsLegalCite I earlier l (entry_of l b) (cite_value given) →
        IsLegalCite I earlier l (entry_of l b) (cite_value result) }
{
    match own_cite(lows, least, b) {
        Some(cite) => cite,
        None => given,
    }
}

/// The cites of the claim, each of another buffer wherever one is legal.
pub(crate) fn eased_cites(alloc: Global, lows: &LowTable, cites: &[Cite]) -> Result<Cites, NoMemory>
    requires some { 0 < length lows.now.claim.now }
    requires each { length cites.now ≡ length lows.now.claim.now }
    ensures own { let l = lows.now.claim.now in
        IfOk result (λ eased.
        AllZip (CitesOwn lows.now.instance.now l) l (map cite_value eased)) }
    ensures legal { let I = lows.now.instance.now in let l = lows.now.claim.now in
        (earlier : List Line) →
        AllZip (IsLegalCite I earlier l) l (map cite_value cites.now) →
        IfOk result (λ eased. AllZip (IsLegalCite I earlier l) l (map cite_value eased)) }
{
    let least = least_end(lows);
    let pairs = lows.claim.pairs();
    let mut eased = Vec::with_capacity(alloc, cites.len())?;
    for place in 0..cites.len() {
        eased.push(eased_cite(lows, least, pairs[place].0, cites[place]))?;
    }
    Ok(Cites::from_vec(eased))
}
