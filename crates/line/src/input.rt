//! Input cut into lines.
ghost use Rattle.std.specs.Prelude.{◌≡◌, length};
ghost use Rattle.line.specs.Lines.{Cut, lines_of};
ghost use Rattle.line.specs.Steps.{Steps, remaining};
ghost use Rattle.std.specs.Iterator.{at_most};

use crate::fields::position;

/// The lines of an input that are still to come.
// By hand: the library's `split` of a slice holds a closure, whose type has no name to stand in a struct.
#[derive(Clone, Copy, Drop)]
pub struct Lines<'a> {
    rest: &'a [u8],
}

impl<'a> Lines<'a> {
    /// The lines of an input, one after another and without their newlines. The last line may end with the input.
    pub fn new(input: &'a [u8]) -> Self
        ensures start { remaining result ≡ input.now }
        ensures law { Cut input.now (lines_of (remaining result)) }
    {
        Lines { rest: input }
    }
}

/// Each step gives the first of the lines that remain.
impl<'a> Iterator for Lines<'a> {
    type Item = &'a [u8];

    ghost next_gives = { λ s r t. Steps s r t };

    ghost remaining = { λ s. at_most (length (remaining s)) };

    fn next(&mut self) -> Option<&'a [u8]> {
        let input = self.rest;
        match position(input, b'\n') {
            Some(end) => {
                self.rest = &input[end + 1..];
                Some(&input[..end])
            }
            None if input.is_empty() => None,
            None => {
                self.rest = &[];
                Some(input)
            }
        }
    }
}
