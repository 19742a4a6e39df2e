//! The laws of the definitions. Each function does nothing: its contract is the law.
ghost use Rattle.bpf_model.specs.Laws.{EndStays, StepsInTurn, RecordAtStart, TableAtStart, StartWithoutTable, OneOutcome};
ghost use Rattle.bpf_model.specs.CallRows.{WorkedCalls};
ghost use Rattle.bpf_model.specs.HelperRows.{WorkedHelpers};

/// An end of a run stays, however many steps are counted after it.
pub fn end_stays()
    ensures { EndStays }
{}

/// Where k steps lead to a state, k + m steps lead to what m steps from that state do.
pub fn steps_in_turn()
    ensures { StepsInTurn }
{}

/// A run begins with its record's bytes at the record's address.
pub fn record_at_start()
    ensures { RecordAtStart }
{}

/// It begins with the bytes of its program's table at the table's address, which R3 is. Without a table R3 is not set.
pub fn table_at_start()
    ensures { TableAtStart }
{}

/// A run of a program without a table begins with its record alone.
pub fn start_without_table()
    ensures { StartWithoutTable }
{}

/// A run with so much fuel has one outcome, and leaves its record in one way.
pub fn one_outcome()
    ensures { OneOutcome }
{}

/// What worked programs of several functions lead to.
pub fn worked_calls()
    ensures { WorkedCalls }
{}

/// What worked programs that ask the graph lead to.
pub fn worked_helpers()
    ensures { WorkedHelpers }
{}
