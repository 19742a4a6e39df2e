//! A row: a script, and what it has to come to.
use crate::recipes::bytes_of;
use service::{Ending, ServeError};
use std::alloc::{AllocError, Global};

/// A script, the text that has to be written for it, and how it has to end.
#[derive(Drop)]
pub struct Row<'a> {
    name: &'a str,
    script: Vec<u8>,
    text: Vec<u8>,
    ending: Ending,
}

impl<'a> Row<'a> {
    /// The row of its lines: the name, those of the script, a mark, and those of the text.
    pub(crate) fn read(alloc: Global, lines: &'a str) -> Result<Row<'a>, AllocError> {
        let (front, behind) = lines.split_once("\n%=").unwrap_or((lines, ""));
        let (name, script) = front.split_once('\n').unwrap_or((front, ""));
        let wanted = behind.strip_prefix('\n').unwrap_or(behind);
        let last = wanted.lines().last().unwrap_or("");
        let mut text = bytes_of(alloc, wanted)?;
        if !text.is_empty() {
            text.push(b'\n')?;
        }
        Ok(Row {
            name,
            script: bytes_of(alloc, script)?,
            text,
            ending: if last.starts_with("fault ") {
                Ending::Fault
            } else {
                Ending::Complete
            },
        })
    }

    /// This row after a head, of which the script and the text come first. A head without a script changes nothing.
    pub(crate) fn behind(self, head: &Row<'_>) -> Result<Row<'a>, AllocError> {
        let mut row = self;
        if head.script.is_empty() {
            return Ok(row);
        }
        let mut script = head.script.clone()?;
        script.push(b'\n')?;
        script.extend_from_slice(&row.script)?;
        row.script = script;
        let mut text = head.text.clone()?;
        text.extend_from_slice(&row.text)?;
        row.text = text;
        Ok(row)
    }

    /// The row's name.
    pub(crate) fn name(&self) -> &'a str {
        self.name
    }

    /// The bytes of the script.
    pub(crate) fn script(&self) -> &[u8] {
        self.script.as_slice()
    }

    /// Whether this is what the script has to come to.
    pub(crate) fn wants(&self, text: &[u8], answer: &Result<Ending, ServeError>) -> bool {
        text == self.text.as_slice() && *answer == Ok(self.ending)
    }
}
