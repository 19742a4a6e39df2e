//! One line of a text.
ghost use Rattle.std.specs.Prelude.{◌≡◌};
ghost use Rattle.bpf_asm.specs.Said.{said_arguments, said_line};
ghost use Rattle.bpf_asm.specs.Statements.{item as item_of, plain as plain_of, label_line as label_line_of, item_of_text as item_text_of, statement as statement_of, word_line as word_line_of};

use crate::errors::TextCause;
use crate::reading::item::{Item, Jumping};
use crate::reading::lexing::{is_name, is_word, position_of_blank, said_part};
use crate::reading::lookup::word;
use crate::reading::statement::{
    alu, branch, call_helper, exit, goes, load, load_signed, one_register, register_pair, store,
    store_register, wide,
};
use crate::reading::statement_arguments::{Arguments, arguments_in};
use crate::reading::word::Word;
use bpf_isa::Instruction;

fn plain<'a>(found: Result<Instruction, TextCause>) -> Result<Item<'a>, TextCause>
    ensures { said_line result ≡ plain_of found }
{
    match found {
        Ok(instruction) => Ok(Item::Plain(instruction)),
        Err(cause) => Err(cause),
    }
}

/// What a word says with its arguments.
fn statement(word: Word, arguments: Arguments<'_>) -> Result<Item<'_>, TextCause>
    ensures { said_line result ≡ statement_of word (said_arguments arguments.entry) }
{
    match word {
        Word::Alu(width, operation) => plain(alu(width, operation, arguments)),
        Word::MoveSigned(extension) => {
            let Some((destination, source)) = register_pair(arguments) else {
                return Err(TextCause::Syntax);
            };
            Ok(Item::Plain(Instruction::MoveSigned {
                extension,
                destination,
                source,
            }))
        }
        Word::Negate(width) => {
            let Some(destination) = one_register(arguments) else {
                return Err(TextCause::Syntax);
            };
            Ok(Item::Plain(Instruction::Negate { width, destination }))
        }
        Word::Swap(order, bits) => {
            let Some(destination) = one_register(arguments) else {
                return Err(TextCause::Syntax);
            };
            Ok(Item::Plain(Instruction::Swap {
                order,
                bits,
                destination,
            }))
        }
        Word::JumpNear => goes(Jumping::Near, arguments),
        Word::JumpFar => goes(Jumping::Far, arguments),
        Word::CallLocal => goes(Jumping::Call, arguments),
        Word::Branch(width, comparison) => branch(width, comparison, arguments),
        Word::CallHelper => plain(call_helper(arguments)),
        Word::Exit => plain(exit(arguments)),
        Word::Load(size) => plain(load(size, arguments)),
        Word::LoadSigned(size) => plain(load_signed(size, arguments)),
        Word::Store(size) => plain(store(size, arguments)),
        Word::StoreRegister(size) => plain(store_register(size, arguments)),
        Word::Wide => plain(wide(arguments)),
    }
}

/// What a line that begins with this word says.
fn word_line<'a>(text: &[u8], rest: &'a [u8]) -> Result<Item<'a>, TextCause>
    ensures { said_line result ≡ word_line_of text.now rest.now }
{
    if !is_word(text) {
        return Err(TextCause::Syntax);
    }
    let Some(arguments) = arguments_in(rest) else {
        return Err(TextCause::Syntax);
    };
    let Some(word) = word(text) else {
        return Err(TextCause::UnknownName);
    };
    statement(word, arguments)
}

fn label_line(name: &[u8]) -> Result<Item<'_>, TextCause>
    ensures { said_line result ≡ label_line_of name.now }
{
    if !is_name(name) {
        return Err(TextCause::Syntax);
    }
    Ok(Item::Label(name))
}

/// What a line without comment and outer blanks says.
fn said(text: &[u8]) -> Result<Item<'_>, TextCause>
    ensures { said_line result ≡ item_text_of text.now }
{
    if text.is_empty() {
        return Ok(Item::Blank);
    }
    let last = text.len() - 1;
    if text[last] == b':' {
        return label_line(&text[..last]);
    }
    let (word, rest) = text.split_at(position_of_blank(text));
    word_line(word, rest)
}

/// What a line says, or its first fault.
pub(crate) fn item_in(line: &[u8]) -> Result<Item<'_>, TextCause>
    ensures { said_line result ≡ item_of line.now }
{
    said(said_part(line))
}
