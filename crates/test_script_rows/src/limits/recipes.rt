//! Scripts, made of lines that each stand for one line or for many.
use itoa::Buffer;
use std::alloc::{AllocError, Global};

/// The numbers that one steps through from the first one on, below another number and round to its front.
#[derive(Clone, Copy)]
struct Steps {
    first: u64,
    step: u64,
    below: u64,
}

impl Steps {
    /// The number after so many steps.
    fn at(self, steps: u64) -> u64 {
        let far = self.first.wrapping_add(self.step.wrapping_mul(steps));
        far.checked_rem(self.below).unwrap_or(0)
    }
}

fn push_number(script: &mut String, number: u64) -> Result<(), AllocError> {
    let mut buffer = Buffer::new();
    script.push_str(" ")?;
    script.push_str(buffer.format(number))
}

fn push_line(script: &mut String, line: &str) -> Result<(), AllocError> {
    script.push_str("\n")?;
    script.push_str(line)
}

/// So many edits of one sign, with the sources and the targets that these steps go to.
#[derive(Clone, Copy)]
struct Edits<'a> {
    sign: &'a str,
    count: u64,
    sources: Steps,
    targets: Steps,
}

impl Edits<'_> {
    /// Puts one of them, by its number, on a line of its own.
    fn push_one(self, script: &mut String, number: u64) -> Result<(), AllocError> {
        push_line(script, self.sign)?;
        push_number(script, self.sources.at(number))?;
        push_number(script, self.targets.at(number))
    }

    /// Puts all of them into the batch that the script has begun.
    fn push_all(self, script: &mut String) -> Result<(), AllocError> {
        for number in 0..self.count {
            self.push_one(script, number)?;
        }
        Ok(())
    }

    /// Puts each of them into a batch of its own.
    fn push_singly(self, script: &mut String) -> Result<(), AllocError> {
        for number in 0..self.count {
            push_line(script, "batch A")?;
            self.push_one(script, number)?;
            push_line(script, "end")?;
        }
        Ok(())
    }
}

/// So many numbers at the end of the last line.
fn push_words(script: &mut String, count: u64, numbers: Steps) -> Result<(), AllocError> {
    for steps in 0..count {
        push_number(script, numbers.at(steps))?;
    }
    Ok(())
}

/// So many batches without an edit.
fn push_batches(script: &mut String, count: u64) -> Result<(), AllocError> {
    for _ in 0..count {
        push_line(script, "batch B")?;
        push_line(script, "end")?;
    }
    Ok(())
}

/// So many times the same line.
fn push_lines(script: &mut String, count: u64, line: &str) -> Result<(), AllocError> {
    for _ in 0..count {
        push_line(script, line)?;
    }
    Ok(())
}

/// The numbers that words say; another word is 0.
fn numbers_of(alloc: Global, words: &str) -> Result<Vec<u64>, AllocError> {
    let mut numbers = Vec::new(alloc);
    for word in words.split(' ') {
        numbers.push(word.parse::<u64>().unwrap_or(0))?;
    }
    Ok(numbers)
}

/// The steps that these numbers say.
fn steps_of(numbers: &[u64]) -> Steps {
    match numbers {
        [first, step, below] => Steps {
            first: *first,
            step: *step,
            below: *below,
        },
        _ => Steps {
            first: 0,
            step: 0,
            below: 0,
        },
    }
}

/// The edits that a line says: a count, and the first number, the step and the limit of their sources and of their targets.
fn edits_of<'a>(sign: &'a str, numbers: &[u64]) -> Option<Edits<'a>> {
    match numbers {
        [count, steps @ ..] if steps.len() == 6 => Some(Edits {
            sign,
            count: *count,
            sources: steps_of(&steps[..3]),
            targets: steps_of(&steps[3..]),
        }),
        _ => None,
    }
}

/// Writes the edits that a line stands for at the end of a script, if it stands for edits. `insert` and `remove` put them into the
/// open batch, `insert_singly` and `remove_singly` each into a batch of its own.
fn push_edits(script: &mut String, word: &str, numbers: &[u64]) -> Result<bool, AllocError> {
    let (sign, is_single) = match word {
        "insert" => ("+", false),
        "remove" => ("-", false),
        "insert_singly" => ("+", true),
        "remove_singly" => ("-", true),
        _ => return Ok(false),
    };
    let Some(edits) = edits_of(sign, numbers) else {
        return Ok(false);
    };
    if is_single {
        edits.push_singly(script)?;
    } else {
        edits.push_all(script)?;
    }
    Ok(true)
}

/// Writes what a line stands for at the end of a script: edits; `words`, a count of numbers at the end of the line before, by their
/// first, their step and their limit; `batches`, a count of batches without an edit; `lines`, a count of lines, and the line. Any
/// other line is itself.
fn push_what_is_meant(alloc: Global, script: &mut String, line: &str) -> Result<(), AllocError> {
    let (word, rest) = line.split_once(' ').unwrap_or((line, ""));
    let numbers = numbers_of(alloc, rest)?;
    if push_edits(script, word, &numbers)? {
        return Ok(());
    }
    match (word, numbers.as_slice()) {
        ("words", [count, steps @ ..]) => push_words(script, *count, steps_of(steps)),
        ("batches", [count]) => push_batches(script, *count),
        ("lines", [count, ..]) => {
            let (_, repeated) = rest.split_once(' ').unwrap_or((rest, ""));
            push_lines(script, *count, repeated)
        }
        _ => push_line(script, line),
    }
}

/// The script that lines stand for. It begins with an empty line.
pub(crate) fn script_of(alloc: Global, lines: &str) -> Result<String, AllocError> {
    let mut script = String::new(alloc);
    for line in lines.lines() {
        push_what_is_meant(alloc, &mut script, line)?;
    }
    Ok(script)
}
