//! A place in a text, and what is read there: numbers, and bytes that have to stand there.

ghost use Rattle.std.specs.Prelude.{◌≡◌, ◌↔◌, ◌∷◌, ◌++◌, [], ◌^◌, ◌-◌, IfNone, IfSome, IsTrue, MatchBool, MatchOption, List, ℕ};
ghost use Rattle.std.specs.Option.{unwrap_or};
ghost use Rattle.log_text.specs.Digits.{Ends, Stops};
ghost use Rattle.log_text.specs.Numerals.{numeral};
ghost use Rattle.log_text.specs.Reading.{BeginsDigit, HasNoField, HasNoMarked, HasNoNumber, IsBreak, IsFieldRead, IsItemRead, IsMarkedRead, IsNumberRead, capped};

use crate::split::{are_canonical, digits_of, short_number};
use std::marker::Model;

/// A number of 64 bits in place of any that was read: the greatest, where it does not fit.
pub(crate) fn cap(value: Option<u64>) -> u64
    ensures { result ≡ unwrap_or value (2 ^ 64 - 1) }
{
    value.unwrap_or(u64::MAX)
}

/// A number, a byte that is no digit, and a number; each number of 64 bits, as `cap` gives it.
#[derive(Clone, Copy)]
pub(crate) struct Marked {
    pub(crate) first: u64,
    pub(crate) mark: u8,
    pub(crate) second: u64,
}

/// The bytes of a text that are not read yet.
#[derive(Drop)]
pub(crate) struct Cursor<'a> {
    rest: &'a [u8],
}

impl<'a> Model for Cursor<'a> {
    ghost use Rattle.std.specs.Prelude.{List, ℕ};

    ghost Value = { List ℕ };

    ghost view = { λ c. c.rest.now };
}

impl<'a> Cursor<'a> {
    /// At the front of the text.
    pub(crate) fn new(text: &'a [u8]) -> Cursor<'a>
        ensures { result ≡ text.now }
    {
        Cursor { rest: text }
    }

    /// Whether all is read.
    pub(crate) fn is_done(&self) -> bool
        ensures { IsTrue result ↔ (self.now ≡ []) }
    {
        self.rest.is_empty()
    }

    /// Goes past these bytes, or stays where others stand.
    pub(crate) fn take(&mut self, bytes: &[u8]) -> bool
        ensures { MatchBool result
            (self.old ≡ bytes.now ++ self.new)
            ((self.new ≡ self.old) × ((r : List ℕ) → self.old ≡ bytes.now ++ r → ⊥)) }
    {
        match self.rest.strip_prefix(bytes) {
            Some(rest) => {
                self.rest = rest;
                true
            }
            None => false,
        }
    }

    /// Reads one byte.
    #[inline(always)]
    fn byte(&mut self) -> Option<u8>
        ensures { MatchOption result (self.old ≡ []) (λ c. self.old ≡ c ∷ self.new) }
    {
        let (byte, rest) = self.rest.split_first()?;
        self.rest = rest;
        Some(*byte)
    }

    /// Reads a number, up to where its digits end: its value where that fits 64 bits.
    /// It is kept out of `capped_number`, which mostly answers without it.
    #[inline(never)]
    pub(crate) fn number(&mut self) -> Option<Option<u64>>
        ensures some { IfSome result (λ value. IsNumberRead self.old value self.new) }
        ensures none { IfNone result (HasNoNumber self.old) }
    {
        let rest = self.rest;
        let front = digits_of(rest);
        let (digits, more) = rest.split_at(front.count);
        if !are_canonical(digits) {
            return None;
        }
        self.rest = more;
        Some(front.value)
    }

    /// Reads a number, up to where its digits end, as one of 64 bits: the greatest, where it does
    /// not fit.
    #[inline(always)]
    pub(crate) fn capped_number(&mut self) -> Option<u64>
        ensures some { IfSome result (λ n. IsItemRead numeral capped self.old n self.new) }
        ensures none { IfNone result (HasNoNumber self.old) }
    {
        let rest = self.rest;
        if let Some(short) = short_number(rest) {
            let (_, more) = rest.split_at(short.count);
            self.rest = more;
            return Some(short.value);
        }
        Some(cap(self.number()?))
    }

    /// Reads a number and these bytes after it.
    pub(crate) fn field(&mut self, end: &[u8]) -> Option<Option<u64>>
        requires { IsBreak end.now }
        ensures some { IfSome result (λ value. IsFieldRead end.now self.old value self.new) }
        ensures none { IfNone result (HasNoField end.now self.old) }
    {
        let value = self.number()?;
        if self.take(end) { Some(value) } else { None }
    }

    /// Reads a number, a byte and a number.
    #[inline(always)]
    pub(crate) fn marked(&mut self) -> Option<Marked>
        ensures some { IfSome result (λ m. IsMarkedRead self.old m.first m.mark m.second self.new) }
        ensures none { IfNone result (HasNoMarked self.old) }
    {
        let first = self.capped_number()?;
        let mark = self.byte()?;
        let second = self.capped_number()?;
        Some(Marked {
            first,
            mark,
            second,
        })
    }

    /// Goes past a space where a digit follows it, or stays.
    #[inline(always)]
    pub(crate) fn next_item(&mut self) -> bool
        requires { Stops self.old }
        ensures { MatchBool result
            ((self.old ≡ 32 ∷ self.new) × BeginsDigit self.new)
            ((self.new ≡ self.old) × Ends self.old) }
    {
        let rest = self.rest;
        if rest.len() < 2 || rest[0] != b' ' || !rest[1].is_ascii_digit() {
            return false;
        }
        self.rest = &rest[1..];
        true
    }
}
