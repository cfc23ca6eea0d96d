//! The closed list of refusals.
//!
//! Every call that can decline answers `Result<_, Refusal>`. A call tests what applies to it in the order of the numbers and
//! gives the first that is met; a refusal leaves every cell, buffer and book as it was.
#![tactic(auto)]

ghost use Rattle.std.specs.Prelude.{◌≡◌, Some};
ghost use Rattle.refusal.specs.Numbers.{number_of, reason_of};

use std::fmt;

/// Why a call declined.
#[derive(Clone, Copy, PartialEq, Eq, Debug)]
pub enum Refusal {
    /// A bench line has none of the five forms.
    Line = 1,
    /// The figures of a memory layer do not fit.
    Layer = 2,
    /// The figures of a field, a corrector or a book do not fit.
    Figures = 3,
    /// The number of entries does not fit, or there is no entry of that number.
    Entry = 4,
    /// A value is not a number, or lies outside -500 to 500 arcseconds.
    Value = 5,
    /// There is no row of that number.
    Row = 6,
    /// A buffer has the wrong length.
    Length = 7,
    /// A buffer that is read has an unused bit set.
    UnusedBit = 8,
    /// A cell or a run of places lies outside the memory.
    Cell = 9,
    /// No code row is near enough.
    NoCodeRow = 10,
}

impl Refusal {
    /// The number under which a refusal is printed and handed to other languages.
    pub fn number(self) -> u8
        ensures { result ≡ number_of self }
    {
        self as u8
    }

    /// The reason in plain words.
    pub fn reason(self) -> &'static str
        ensures { result.now ≡ reason_of self }
    {
        match self {
            Refusal::Line => "the line has none of the five forms",
            Refusal::Layer => "the layer's figures do not fit",
            Refusal::Figures => "the figures do not fit",
            Refusal::Entry => "no such entry",
            Refusal::Value => "the value is outside -500 to 500",
            Refusal::Row => "no such row",
            Refusal::Length => "the buffer has the wrong length",
            Refusal::UnusedBit => "an unused bit is set",
            Refusal::Cell => "no such cell or run of places",
            Refusal::NoCodeRow => "no code row is near enough",
        }
    }
}

/// Prints the reason.
// By hand, over `reason`: a derived Display would hold the texts a second time, and states no output.
impl fmt::Display for Refusal {
    ghost output = { λ r. Some (reason_of r) };

    fn fmt<W: fmt::Write>(&self, f: &mut fmt::Formatter<W>) -> fmt::Result {
        f.write_str(self.reason())
    }
}

/// So that `?` carries a refusal out of a program.
impl std::error::Error for Refusal {}
