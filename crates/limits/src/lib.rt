//! The limits that owners are told are sharp: rows on which one strike more shows.
#![tactic(auto)]

ghost use Rattle.limits.specs.Sharp.{SharpLimits};

/// One strike over s can have a read refused, one over 2t - s can have it mistaken, and a reach over t does not fit.
pub fn limits_are_sharp()
    ensures { SharpLimits }
{}
