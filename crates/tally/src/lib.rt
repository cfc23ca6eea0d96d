//! The tally of a book: what each row must hold after a list of calls, told from the calls alone, and what a book survives.
//!
//! There is nothing to run here. Each function carries a theorem on its contract: the laws of damage over every code whose rows lie far
//! enough apart, that what each call does to the cells carries the promises, and that the codes of the fields are such codes.
#![tactic(auto)]

ghost use Rattle.tally.specs.Damage.{DamageLaws};
ghost use Rattle.tally.specs.Fields.{FieldCodes};
ghost use Rattle.tally.specs.Promises.{CallLaws};

/// Strikes within 2t - s leave the data true, within s they leave it in reach, and a burst spread over rows counts for each as its share.
pub fn damage_laws_hold()
    ensures { DamageLaws }
{}

/// A call that does to the cells what it says keeps the rows as the tally has them, and its answer is as promised.
pub fn calls_carry_the_promises()
    ensures { CallLaws }
{}

/// For every lawful field and every t from 1 to 3, the code rows make a lawful setting.
pub fn field_codes_are_lawful()
    ensures { FieldCodes }
{}
