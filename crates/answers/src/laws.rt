//! Laws of answers. Each function does nothing: its contract is the law.
ghost use Rattle.answers.specs.Components.{LabelsAreComponents};
ghost use Rattle.answers.specs.Cores.{NumbersAreCores};
ghost use Rattle.answers.specs.Independent.{SetsAreIndependent};
ghost use Rattle.answers.specs.Search.{LevelsAreDistances};

/// Levels that pass the test are distances from the root, and a vertex without a level cannot be reached from it.
pub fn levels_are_distances()
    ensures { LevelsAreDistances }
{}

/// Labels that pass the test are components: two vertices have the same label exactly if edges join them, whatever their direction.
pub fn labels_are_components()
    ensures { LabelsAreComponents }
{}

/// Numbers that pass the test are core numbers: a vertex belongs to a core of its number, and to none of a greater one.
pub fn numbers_are_cores()
    ensures { NumbersAreCores }
{}

/// Sets that pass the test are independent, whatever the direction of edges, and no vertex can be added to them.
pub fn sets_are_independent()
    ensures { SetsAreIndependent }
{}
