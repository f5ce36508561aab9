//! Logs as their texts say them: any numbers, no instance.

ghost use Rattle.std.specs.Prelude.{◌≡◌};

use std::marker::Model;

/// Why a buffer need not come first, as a text says it.
#[derive(Clone, Copy)]
pub enum RawCite {
    /// The line of that number covers the child.
    Line(u64),
    /// That buffer ends below it.
    Below(u64),
    /// That buffer is a twin before it.
    Twin(u64),
}

/// A line as a text says it. Nothing is known of it: its claim may name buffers that no instance
/// has, and its cites may be of other buffers than those of its claim.
#[derive(Drop)]
pub enum RawLine {
    /// The buffers of the claim that are live at `moment` (in moments), can start at `height` (in
    /// bytes) or above alone, and start at multiples of `modulus` (in bytes) are too large
    /// together.
    Over {
        moment: u64,
        height: u64,
        modulus: u64,
        claim: RawClaim,
    },
    /// Each buffer of the claim need not come first.
    Cases {
        claim: RawClaim,
        cites: RawCites,
    },
}

/// A log as a text says it: the count of buffers, the capacity in bytes, the lines, and the number
/// of the line that ends it.
#[derive(Drop)]
pub struct RawLog {
    pub count: u64,
    pub capacity: u64,
    pub lines: RawLines,
    pub end: u64,
}

/// Lines as a text says them, in order.
#[derive(Drop)]
pub struct RawLines {
    items: Vec<RawLine>,
}

impl Model for RawLines {
    ghost use Rattle.std.specs.Prelude.{List};
    ghost use Rattle.log_text.specs.declared.raw.RawLine.{RawLine};

    ghost Value = { List RawLine };

    ghost view = { λ l. l.items.items };
}

impl RawLines {
    /// The lines of a vector.
    pub fn from_vec(items: Vec<RawLine>) -> RawLines
        ensures value { result ≡ items.items }
    {
        RawLines { items }
    }

    /// The lines in order.
    pub fn as_slice(&self) -> &[RawLine]
        ensures value { result.now ≡ self.now }
    {
        self.items.as_slice()
    }

    /// The vector of the lines.
    pub fn into_vec(self) -> Vec<RawLine>
        ensures value { result.items ≡ self }
    {
        self.items
    }
}

/// Buffers as a text says them, each with its bound in bytes.
#[derive(Drop)]
pub struct RawClaim {
    pairs: Vec<(u64, u64)>,
}

impl Model for RawClaim {
    ghost use Rattle.dsa_terms.specs.Claims.{Claim};

    ghost Value = { Claim };

    ghost view = { λ c. c.pairs.items };
}

impl RawClaim {
    /// The claim of these pairs.
    pub fn from_vec(items: Vec<(u64, u64)>) -> RawClaim
        ensures value { result ≡ items.items }
    {
        RawClaim { pairs: items }
    }

    /// The pairs of a buffer and its bound, in order.
    pub fn as_slice(&self) -> &[(u64, u64)]
        ensures value { result.now ≡ self.now }
    {
        self.pairs.as_slice()
    }
}

/// Buffers as a text says them, each with its cite.
#[derive(Drop)]
pub struct RawCites {
    cites: Vec<(u64, RawCite)>,
}

impl Model for RawCites {
    ghost use Rattle.std.specs.Prelude.{List, ℕ};
    ghost use Rattle.log_text.specs.declared.raw.RawCite.{RawCite};

    ghost Value = { List (ℕ × RawCite) };

    ghost view = { λ c. c.cites.items };
}

impl RawCites {
    /// The cites of a vector.
    pub fn from_vec(items: Vec<(u64, RawCite)>) -> RawCites
        ensures value { result ≡ items.items }
    {
        RawCites { cites: items }
    }

    /// The pairs of a buffer and its cite, in order.
    pub fn as_slice(&self) -> &[(u64, RawCite)]
        ensures value { result.now ≡ self.now }
    {
        self.cites.as_slice()
    }
}
