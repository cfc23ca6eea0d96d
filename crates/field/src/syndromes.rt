//! The syndromes of a row.
ghost use Rattle.std.specs.Prelude.{◌≡◌};
ghost use Rattle.field.specs.Syndromes.{plus};

/// S_1, S_3 and S_5: the sums of alpha^p, alpha^3p and alpha^5p over the set positions p.
#[derive(Clone, Copy, PartialEq, Eq, Debug)]
pub struct Syndromes {
    pub s1: u8,
    pub s3: u8,
    pub s5: u8,
}

impl Syndromes {
    // Not `Default`, which would be public: only this crate starts from no position.
    /// The syndromes of no position.
    pub(crate) const NONE: Syndromes = Syndromes {
        s1: 0,
        s3: 0,
        s5: 0,
    };

    /// The sums of two in a house field, where sums go bit by bit.
    pub(crate) fn plus(self, other: Syndromes) -> Syndromes
        ensures { result ≡ plus self other }
    {
        Syndromes {
            s1: self.s1 ^ other.s1,
            s3: self.s3 ^ other.s3,
            s5: self.s5 ^ other.s5,
        }
    }
}
