//! How a program's edges run.
use std::fmt;
use verifier::WhySingly;

/// How the edges of an accepted program run: in blocks, which may give up, or one by one and why so. It is written as a line.
#[derive(Drop)]
pub struct Pace {
    pub why_singly: Option<WhySingly>,
}

impl fmt::Display for Pace {
    fn fmt<W: fmt::Write>(&self, f: &mut fmt::Formatter<W>) -> fmt::Result {
        let Some(why) = self.why_singly else {
            return writeln!(
                f,
                "runs in blocks of edges, edge by edge where one gives up"
            );
        };
        write!(f, "runs edge by edge, since ")?;
        match why {
            WhySingly::Stores { pc } => {
                writeln!(f, "the instruction at pc {pc} stores to memory")
            }
            WhySingly::CallsFunction { pc } => {
                writeln!(f, "the instruction at pc {pc} calls a function")
            }
            WhySingly::Gathers { pc } => { writeln!(f, "the instruction at pc {pc} calls gather") }
            WhySingly::PassesOver { shortest, units } => {
                writeln!(
                    f,
                    "a run may execute only {shortest} instructions of its {units} units"
                )
            }
        }
    }
}
