//! Laws of maps in parts, and of pushes. Each function does nothing: its contract is the law.
ghost use Rattle.map_model.specs.Parts.{PartsAreTheWhole};
ghost use Rattle.map_model.specs.Pushes.{PushedNumbersReduce, PushesInTurn, PushesJoin};
ghost use Rattle.map_model.specs.PushParts.{PushPartsAreTheWhole};
ghost use Rattle.map_model.specs.PushRows.{WorkedPushes};

/// A map in parts that has come to the frontier's end has written what a map of the whole frontier gives: a value for each vertex,
/// how many edges there are, and what all their numbers reduce to. However it was cut, nothing is lost or counted twice.
pub fn parts_are_the_whole()
    ensures { PartsAreTheWhole }
{}

/// A push in parts that has come to the frontier's end has left what a push of the whole frontier leaves, and has counted and reduced
/// all its numbers. However it was cut, no number went to its target twice, and none is missing.
pub fn push_parts_are_the_whole()
    ensures { PushPartsAreTheWhole }
{}

/// A push leaves at each vertex what the number before and all numbers that went there reduce to, in whatever order they came.
pub fn pushed_numbers_reduce()
    ensures { PushedNumbersReduce }
{}

/// A push of some numbers and then of others leaves what a push of all of them does.
pub fn pushes_in_turn()
    ensures { PushesInTurn }
{}

/// A push may go to several arrays: all but one begin with what no number reduces to, and they are joined place by place.
pub fn pushes_join()
    ensures { PushesJoin }
{}

/// What worked pushes leave, and at how many places they leave another number.
pub fn worked_pushes()
    ensures { WorkedPushes }
{}
