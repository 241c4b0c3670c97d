//! What holds of placed statements.
ghost use Rattle.c_placing.specs.Placing.{OthersAreAsBefore, PlacedDoTheSame};

/// Statements do in another function what they do in theirs: they return the same, and leave the
/// same struct, where each of their locals that had a value has it under its new number. What those
/// numbers held before makes no difference, and the locals of the other function stay as they were.
pub fn placed_statements_do_the_same()
    ensures same { PlacedDoTheSame }
    ensures others { OthersAreAsBefore }
{}
