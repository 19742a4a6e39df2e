//! What the abstract pass solves, for readers of the definitions.
ghost use Rattle.verifier.specs.Laws.{AssignedSolves, OneSolution, FramesAreLive, FramesAreDescribed};
ghost use Rattle.verifier.specs.VerdictRows.{WorkedVerdicts};
ghost use Rattle.verifier.specs.HelperVerdicts.{WorkedHelperVerdicts};
ghost use Rattle.verifier.specs.LentVerdicts.{WorkedLentVerdicts};
ghost use Rattle.verifier.specs.TableVerdicts.{WorkedTableVerdicts, KnowsRecordAlone};

/// What is known at each pc of a passage solves its equations.
pub fn assigned_solves()
    ensures { AssignedSolves }
{}

/// The equations have no other solution.
pub fn one_solution()
    ensures { OneSolution }
{}

/// Where a run of a program stands, the verifier knows each frame that is live there, and no other.
pub fn frames_are_live()
    ensures { FramesAreLive }
{}

/// What it knows describes each of them.
pub fn frames_are_described()
    ensures { FramesAreDescribed }
{}

/// The verdicts on worked programs of several functions.
pub fn worked_verdicts()
    ensures { WorkedVerdicts }
{}

/// The verdicts on worked programs that call helpers.
pub fn worked_helper_verdicts()
    ensures { WorkedHelperVerdicts }
{}

/// The verdicts on worked programs that carry a table.
pub fn worked_table_verdicts()
    ensures { WorkedTableVerdicts }
{}

/// The verdicts on worked programs that lend stack bytes.
pub fn worked_lent_verdicts()
    ensures { WorkedLentVerdicts }
{}

/// Of a program without a table the rules know its record alone.
pub fn knows_the_record_alone()
    ensures { KnowsRecordAlone }
{}
