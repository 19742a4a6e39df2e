//! A block of the input: what is done with its rows, and the rows.

/// A block: `KIND NUMBER: NAME`, where some kinds have no number, and below it what is in it.
#[derive(Clone, Copy)]
pub struct Block<'a> {
    /// What is done with each row.
    pub kind: &'a str,
    /// The record length or the fuel, or whatever the kind needs.
    pub number: u64,
    pub name: &'a str,
    pub lines: &'a str,
}

impl<'a> Block<'a> {
    /// The block of this text, which begins after the mark.
    pub(crate) fn read(part: &'a str) -> Block<'a> {
        let (head, lines) = part.split_once('\n').unwrap_or((part, ""));
        let (kind, name) = head.split_once(": ").unwrap_or((head, ""));
        let (kind, number) = kind.split_once(' ').unwrap_or((kind, ""));
        Block {
            kind,
            number: number.parse::<u64>().unwrap_or(0),
            name,
            lines,
        }
    }
}

/// What goes in, and what has to come out.
#[derive(Clone, Copy)]
pub struct Row<'a> {
    pub input: &'a str,
    pub wanted: &'a str,
    /// Whether all is wanted that comes out, or it has to end so.
    pub is_whole: bool,
}

impl<'a> Row<'a> {
    /// The one row of a block in which a line is the mark between what goes in and what is wanted.
    pub(crate) fn of_block(lines: &'a str) -> Option<Row<'a>> {
        if let Some((input, wanted)) = lines.split_once("%=\n") {
            return Some(Row {
                input,
                wanted,
                is_whole: true,
            });
        }
        let (input, wanted) = lines.split_once("%~\n")?;
        Some(Row {
            input,
            wanted,
            is_whole: false,
        })
    }

    /// The row of a line.
    pub(crate) fn of_line(line: &'a str) -> Row<'a> {
        let (input, wanted) = line.split_once(" | ").unwrap_or((line, ""));
        Row {
            input,
            wanted,
            is_whole: true,
        }
    }

    /// Whether what came out is wanted.
    pub(crate) fn wants(&self, found: &str) -> bool {
        if self.is_whole {
            found == self.wanted
        } else {
            found.ends_with(self.wanted)
        }
    }
}
