//! Laws of every memory, each on the contract of a function.
ghost use Rattle.memory.specs.Lists.{ListLaws};

/// A memory's cells are a list: a write sets one element, and a refusal keeps the list.
pub fn lists_stand()
    ensures { ListLaws }
{}
