//! The numbers that bits are packed in.
ghost use Rattle.std.specs.Prelude.{◌≡◌, ℕ, ◌*◌, ◌/◌, ◌%◌, ◌^◌, ◌<◌, ◌≤◌, List, map};
ghost use Rattle.std.proofs.Common.{refl, sym, arith};
ghost use Rattle.std.proofs.lemmas.List.{map-id};

/// An unsigned number of at most 32 bits, whose bits are told apart by an index, bit 0 the least.
pub trait Element: Copy {
    /// How many bits it has.
    const WIDTH: usize;

    ghost WIDTH: { ℕ };

    /// The number.
    ghost number: { Self → ℕ };

    /// The numbers of a list of elements.
    ghost numbers: { List Self → List ℕ };

    /// The number as a word.
    fn to_word(self) -> u32
        ensures same { result ≡ number self }
        ensures fits { result < 2 ^ WIDTH };

    /// The low bits of a word.
    fn from_word(word: u32) -> Self
        ensures { number result ≡ word % 2 ^ WIDTH };

    /// The numbers of a list are those of its elements.
    ghost each: { (xs : List Self) → numbers xs ≡ map number xs };

    /// There is a bit,
    ghost wide: { 0 < WIDTH };

    /// a word holds the number,
    ghost narrow: { WIDTH ≤ 32 };

    /// and 64 bits fill whole numbers.
    ghost whole: { WIDTH * (64 / WIDTH) ≡ 64 };
}

impl Element for u8 {
    const WIDTH: usize = 8;

    ghost WIDTH = { 8 };

    ghost number = { λ x. x };

    ghost numbers = { λ xs. xs };

    fn to_word(self) -> u32 {
        u32::from(self)
    }

    fn from_word(word: u32) -> u8 {
        (word % 256) as u8
    }

    ghost each = { λ xs. sym (map-id xs) };

    ghost wide = { Prim.search arith };

    ghost narrow = { Prim.search arith };

    ghost whole = { refl };
}

impl Element for u32 {
    const WIDTH: usize = 32;

    ghost WIDTH = { 32 };

    ghost number = { λ x. x };

    ghost numbers = { λ xs. xs };

    fn to_word(self) -> u32 {
        self
    }

    fn from_word(word: u32) -> u32 {
        word
    }

    ghost each = { λ xs. sym (map-id xs) };

    ghost wide = { Prim.search arith };

    ghost narrow = { Prim.search arith };

    ghost whole = { refl };
}
