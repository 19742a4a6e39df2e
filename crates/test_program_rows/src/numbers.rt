//! The numbers of errors, causes and traps, with their words.
use anyhow::{Result, bail};
use bpf_asm::TextCause;
use bpf_image::ImageError;
use bpf_isa::DecodeError;
use bpf_machine::TrapKind;
use std::alloc::{AllocError, Global};
use verifier::Cause;

fn decode_errors(alloc: Global) -> Result<String, AllocError> {
    let mut text = String::new(alloc);
    for error in [
        DecodeError::Truncated,
        DecodeError::UnknownOpcode,
        DecodeError::UnusedField,
        DecodeError::BadRegister,
        DecodeError::BadWide,
    ] {
        write!(text, "{} {error:?}: {error}\n", error as u8)?;
    }
    Ok(text)
}

fn text_causes(alloc: Global) -> Result<String, AllocError> {
    let mut text = String::new(alloc);
    for cause in [
        TextCause::Syntax,
        TextCause::UnknownName,
        TextCause::DoubleLabel,
        TextCause::UnknownLabel,
        TextCause::NumberRange,
        TextCause::TooLong,
        TextCause::OutOfMemory,
    ] {
        write!(text, "{} {cause:?}: {cause}\n", cause as u8)?;
    }
    Ok(text)
}

fn image_errors(alloc: Global) -> Result<String, AllocError> {
    let mut text = String::new(alloc);
    for error in [
        ImageError::Magic,
        ImageError::Length,
        ImageError::RecordLength,
        ImageError::CodeLength,
        ImageError::OutOfMemory,
        ImageError::TableLength,
    ] {
        write!(text, "{} {error:?}: {error}\n", error as u8)?;
    }
    Ok(text)
}

fn trap_kinds(alloc: Global) -> Result<String, AllocError> {
    let mut text = String::new(alloc);
    for kind in [
        TrapKind::BadInstruction,
        TrapKind::OutsideCode,
        TrapKind::UnsetRegister,
        TrapKind::OutsideMemory,
        TrapKind::UnsetByte,
        TrapKind::FrameRegister,
        TrapKind::NinthFrame,
        TrapKind::UnknownHelper,
        TrapKind::RoomNotAllowed,
        TrapKind::UnsetResult,
        TrapKind::ReadOnly,
    ] {
        write!(text, "{} {kind:?}\n", kind as u8)?;
    }
    Ok(text)
}

fn causes(alloc: Global) -> Result<String, AllocError> {
    let mut text = String::new(alloc);
    for cause in [
        Cause::BadInstruction,
        Cause::JumpOut,
        Cause::JumpBack,
        Cause::CallTarget,
        Cause::FallsOff,
        Cause::TooDeep,
        Cause::TooLong,
        Cause::UnsetRegister,
        Cause::FrameRegister,
        Cause::PointerUse,
        Cause::OutOfRange,
        Cause::UnsetStackByte,
        Cause::HelperArgument,
        Cause::UnknownHelper,
        Cause::ResultNotNumber,
        Cause::OutOfMemory,
        Cause::ReadOnly,
        Cause::TooManyPairs,
    ] {
        write!(text, "{} {cause:?}: {cause}\n", cause as u8)?;
    }
    Ok(text)
}

/// A line for each value of a type, in the order of the numbers.
pub(crate) fn numbers_of(alloc: Global, name: &str) -> Result<String> {
    let text = match name.trim() {
        "DecodeError" => decode_errors(alloc)?,
        "TextCause" => text_causes(alloc)?,
        "ImageError" => image_errors(alloc)?,
        "TrapKind" => trap_kinds(alloc)?,
        "Cause" => causes(alloc)?,
        other => bail!("{other} has no numbers here"),
    };
    Ok(text)
}
