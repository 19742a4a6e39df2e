//! A word with its arguments, as an instruction.
ghost use Rattle.std.specs.Prelude.{◌≡◌};
ghost use Rattle.bpf_asm.specs.Said.{said_argument, said_arguments, said_line};
ghost use Rattle.bpf_asm.specs.Statements.{
  alu as alu_of,
  branch as branch_of,
  goes as goes_of,
  call_helper as call_helper_of,
  load as load_of,
  one_register as one_register_of,
  operand as operand_of,
  register_pair as register_pair_of,
  store_register as store_register_of,
  exit as exit_of,
  load_signed as load_signed_of,
  store as store_of,
  wide as wide_statement,
};

use crate::errors::TextCause;
use crate::reading::argument::Argument;
use crate::reading::item::{Item, Jumping};
use crate::reading::numeral::{immediate, offset, wide_value};
use crate::reading::statement_arguments::Arguments;
use bpf_isa::{Comparison, Instruction, Operand, Operation, Register, SignedSize, Size, Width};

/// A register or a number.
fn operand(argument: Argument) -> Result<Operand, TextCause>
    ensures { result ≡ operand_of (said_argument argument.entry) }
{
    match argument {
        Argument::Register(register) => Ok(Operand::Source(register)),
        Argument::Number(number) => match immediate(number) {
            Some(number) => Ok(Operand::Immediate(number)),
            None => Err(TextCause::NumberRange),
        },
        Argument::Memory(_, _) | Argument::Name(_) => Err(TextCause::Syntax),
    }
}

pub(crate) fn alu(
    width: Width,
    operation: Operation,
    arguments: Arguments,
) -> Result<Instruction, TextCause>
    ensures { result ≡ alu_of width operation (said_arguments arguments.entry) }
{
    let Arguments::Two(first, second) = arguments else {
        return Err(TextCause::Syntax);
    };
    let Argument::Register(destination) = first else {
        return Err(TextCause::Syntax);
    };
    let operand = operand(second)?;
    Ok(Instruction::Alu {
        width,
        operation,
        destination,
        operand,
    })
}

/// Two registers.
pub(crate) fn register_pair(arguments: Arguments) -> Option<(Register, Register)>
    ensures { result ≡ register_pair_of (said_arguments arguments.entry) }
{
    let Arguments::Two(first, second) = arguments else {
        return None;
    };
    let Argument::Register(destination) = first else {
        return None;
    };
    let Argument::Register(source) = second else {
        return None;
    };
    Some((destination, source))
}

/// One register.
pub(crate) fn one_register(arguments: Arguments) -> Option<Register>
    ensures { result ≡ one_register_of (said_arguments arguments.entry) }
{
    let Arguments::One(first) = arguments else {
        return None;
    };
    let Argument::Register(destination) = first else {
        return None;
    };
    Some(destination)
}

pub(crate) fn call_helper(arguments: Arguments) -> Result<Instruction, TextCause>
    ensures { result ≡ call_helper_of (said_arguments arguments.entry) }
{
    let Arguments::One(first) = arguments else {
        return Err(TextCause::Syntax);
    };
    let Argument::Number(number) = first else {
        return Err(TextCause::Syntax);
    };
    match immediate(number) {
        Some(number) => Ok(Instruction::CallHelper { number }),
        None => Err(TextCause::NumberRange),
    }
}

pub(crate) fn exit(arguments: Arguments) -> Result<Instruction, TextCause>
    ensures { result ≡ exit_of (said_arguments arguments.entry) }
{
    match arguments {
        Arguments::Zero => Ok(Instruction::Exit),
        _ => Err(TextCause::Syntax),
    }
}

pub(crate) fn load(size: Size, arguments: Arguments) -> Result<Instruction, TextCause>
    ensures { result ≡ load_of size (said_arguments arguments.entry) }
{
    let Arguments::Two(first, second) = arguments else {
        return Err(TextCause::Syntax);
    };
    let Argument::Register(destination) = first else {
        return Err(TextCause::Syntax);
    };
    let Argument::Memory(base, displacement) = second else {
        return Err(TextCause::Syntax);
    };
    match offset(displacement) {
        Some(offset) => Ok(Instruction::Load {
            size,
            destination,
            base,
            offset,
        }),
        None => Err(TextCause::NumberRange),
    }
}

pub(crate) fn load_signed(size: SignedSize, arguments: Arguments) -> Result<Instruction, TextCause>
    ensures { result ≡ load_signed_of size (said_arguments arguments.entry) }
{
    let Arguments::Two(first, second) = arguments else {
        return Err(TextCause::Syntax);
    };
    let Argument::Register(destination) = first else {
        return Err(TextCause::Syntax);
    };
    let Argument::Memory(base, displacement) = second else {
        return Err(TextCause::Syntax);
    };
    match offset(displacement) {
        Some(offset) => Ok(Instruction::LoadSigned {
            size,
            destination,
            base,
            offset,
        }),
        None => Err(TextCause::NumberRange),
    }
}

pub(crate) fn store(size: Size, arguments: Arguments) -> Result<Instruction, TextCause>
    ensures { result ≡ store_of size (said_arguments arguments.entry) }
{
    let Arguments::Two(first, second) = arguments else {
        return Err(TextCause::Syntax);
    };
    let Argument::Memory(base, displacement) = first else {
        return Err(TextCause::Syntax);
    };
    let Argument::Number(number) = second else {
        return Err(TextCause::Syntax);
    };
    let Some(offset) = offset(displacement) else {
        return Err(TextCause::NumberRange);
    };
    let Some(immediate) = immediate(number) else {
        return Err(TextCause::NumberRange);
    };
    Ok(Instruction::Store {
        size,
        base,
        offset,
        immediate,
    })
}

pub(crate) fn store_register(size: Size, arguments: Arguments) -> Result<Instruction, TextCause>
    ensures { result ≡ store_register_of size (said_arguments arguments.entry) }
{
    let Arguments::Two(first, second) = arguments else {
        return Err(TextCause::Syntax);
    };
    let Argument::Memory(base, displacement) = first else {
        return Err(TextCause::Syntax);
    };
    let Argument::Register(source) = second else {
        return Err(TextCause::Syntax);
    };
    match offset(displacement) {
        Some(offset) => Ok(Instruction::StoreRegister {
            size,
            base,
            offset,
            source,
        }),
        None => Err(TextCause::NumberRange),
    }
}

pub(crate) fn wide(arguments: Arguments) -> Result<Instruction, TextCause>
    ensures { result ≡ wide_statement (said_arguments arguments.entry) }
{
    let Arguments::Two(first, second) = arguments else {
        return Err(TextCause::Syntax);
    };
    let Argument::Register(destination) = first else {
        return Err(TextCause::Syntax);
    };
    let Argument::Number(number) = second else {
        return Err(TextCause::Syntax);
    };
    match wide_value(number) {
        Some(value) => Ok(Instruction::Wide { destination, value }),
        None => Err(TextCause::NumberRange),
    }
}

/// A statement that goes to a label and has no other argument.
pub(crate) fn goes(jumping: Jumping, arguments: Arguments<'_>) -> Result<Item<'_>, TextCause>
    ensures { said_line result ≡ goes_of jumping (said_arguments arguments.entry) }
{
    let Arguments::One(first) = arguments else {
        return Err(TextCause::Syntax);
    };
    let Argument::Name(name) = first else {
        return Err(TextCause::Syntax);
    };
    Ok(Item::Goes(jumping, name))
}

pub(crate) fn branch(
    width: Width,
    comparison: Comparison,
    arguments: Arguments<'_>,
) -> Result<Item<'_>, TextCause>
    ensures { said_line result ≡ branch_of width comparison (said_arguments arguments.entry) }
{
    let Arguments::Three(first, second, third) = arguments else {
        return Err(TextCause::Syntax);
    };
    let Argument::Register(left) = first else {
        return Err(TextCause::Syntax);
    };
    let Argument::Name(name) = third else {
        return Err(TextCause::Syntax);
    };
    let right = operand(second)?;
    Ok(Item::Goes(Jumping::Branch(width, comparison, left, right), name))
}
