//! What stands behind the name of a refusal: its fields, each behind its own name.

ghost use Rattle.std.specs.Prelude.{◌≡◌, ◌++◌, OnOk};
ghost use Rattle.std.specs.Fmt.{decimal};
ghost use Rattle.std.specs.List.{flat_map};
ghost use Rattle.design_judge.specs.Refusals.{check_fields, count_name as the_count_name, design_fields, elab_fields, field, file_field, line_and_name, place_fields, spot_fields, stimulus_fields, text_fields};
ghost use Rattle.design_judge.specs.Loops.{behind_blank};

use crate::DesignFault;
use check_core::{CheckFault, Spot};
use elab_core::{Count, ElabFault};
use gen_text::TextFault;
use places::{FILES_MAX, file_of, line_in};
use std::alloc::Global;
use stim_text::StimFault;
use text_core::{NoMemory, Text};

/// Adds a field: a blank, its name, a blank and its value.
fn push_field(line: &mut Vec<u8>, name: &str, value: &[u8]) -> Result<(), NoMemory>
    ensures { OnOk result (line.new.items ≡ line.old.items ++ field name.now value.now) }
{
    line.extend_from_slice(b" ")?;
    line.extend_from_slice(name.as_bytes())?;
    line.extend_from_slice(b" ")?;
    line.extend_from_slice(value)?;
    Ok(())
}

/// Adds a field that is a number, in decimal digits.
fn push_number(alloc: Global, line: &mut Vec<u8>, name: &str, number: u64) -> Result<(), NoMemory>
    ensures { OnOk result (line.new.items ≡ line.old.items ++ field name.now (decimal number)) }
{
    let digits = format!(in alloc; "{number}")?;
    push_field(line, name, digits.as_bytes())
}

/// Adds the number of a file, where it is not 0.
fn push_file(alloc: Global, line: &mut Vec<u8>, file: u32) -> Result<(), NoMemory>
    ensures { OnOk result (line.new.items ≡ line.old.items ++ file_field file) }
{
    if file == 0 {
        return Ok(());
    }
    push_number(alloc, line, "file", u64::from(file))
}

/// Adds a place: its file, where that is not 0, and its line.
fn push_place(alloc: Global, line: &mut Vec<u8>, at: u32) -> Result<(), NoMemory>
    ensures { OnOk result (line.new.items ≡ line.old.items ++ place_fields at) }
{
    push_file(alloc, line, file_of(at))?;
    push_number(alloc, line, "line", u64::from(line_in(at)))
}

/// Adds the fields of a fault of the text of this file. Want of memory has none.
fn push_text_fields(
    alloc: Global,
    line: &mut Vec<u8>,
    file: u32,
    fault: TextFault,
) -> Result<(), NoMemory>
    ensures { OnOk result (line.new.items ≡ line.old.items ++ text_fields file fault) }
{
    match fault {
        TextFault::TooLong => push_file(alloc, line, file),
        TextFault::NotAscii { offset } => {
            push_file(alloc, line, file)?;
            push_number(alloc, line, "offset", offset)
        }
        TextFault::BadToken { line: at } => push_place(alloc, line, at),
        TextFault::Syntax { line: at } => push_place(alloc, line, at),
        TextFault::NoMemory => Err(NoMemory),
    }
}

/// Adds the place of a refusal, and a name.
fn push_line_and_name(
    alloc: Global,
    line: &mut Vec<u8>,
    at: u32,
    name: &Text,
) -> Result<(), NoMemory>
    ensures { OnOk result (line.new.items ≡ line.old.items ++ line_and_name at name.now) }
{
    push_place(alloc, line, at)?;
    push_field(line, "name", name.bytes())
}

/// What elaboration counts.
fn count_name(what: Count) -> &'static str
    ensures { result.now ≡ the_count_name what }
{
    match what {
        Count::Instances => "instances",
        Count::Turns => "turns",
        Count::Statements => "statements",
        Count::Signals => "signals",
        Count::Parts => "parts",
        Count::Cells => "cells",
    }
}

/// Adds the fields of a fault of elaboration. Want of memory has none.
fn push_elab_fields(alloc: Global, line: &mut Vec<u8>, fault: &ElabFault) -> Result<(), NoMemory>
    ensures { OnOk result (line.new.items ≡ line.old.items ++ elab_fields fault.now) }
{
    match fault {
        ElabFault::UnknownModule { line: at, name } => push_line_and_name(alloc, line, *at, name),
        ElabFault::UnknownParameter { line: at, name } => {
            push_line_and_name(alloc, line, *at, name)
        }
        ElabFault::ElabRange { line: at } => push_place(alloc, line, *at),
        ElabFault::TooDeep { line: at, name } => push_line_and_name(alloc, line, *at, name),
        ElabFault::TooLarge {
            line: at,
            what,
            limit,
        } => {
            push_place(alloc, line, *at)?;
            push_field(line, "what", count_name(*what).as_bytes())?;
            push_number(alloc, line, "limit", *limit)
        }
        ElabFault::NoMemory => Err(NoMemory),
    }
}

/// Adds a spot in a design: a place, a name, and the path of the instance.
fn push_spot(alloc: Global, line: &mut Vec<u8>, at: &Spot) -> Result<(), NoMemory>
    ensures { OnOk result (line.new.items ≡ line.old.items ++ spot_fields at.now) }
{
    push_line_and_name(alloc, line, at.line, &at.name)?;
    push_field(line, "instance", at.instance.bytes())
}

/// Adds the fields of a refusal of a check. Want of memory has none.
fn push_check_fields(alloc: Global, line: &mut Vec<u8>, fault: &CheckFault) -> Result<(), NoMemory>
    ensures { OnOk result (line.new.items ≡ line.old.items ++ check_fields fault.now) }
{
    match fault {
        CheckFault::UnknownName(at) => push_spot(alloc, line, at),
        CheckFault::DuplicateName(at) => push_spot(alloc, line, at),
        CheckFault::BadWidth(at) => push_spot(alloc, line, at),
        CheckFault::WidthMismatch { at, have, want } => {
            push_spot(alloc, line, at)?;
            push_number(alloc, line, "have", *have)?;
            push_number(alloc, line, "want", *want)
        }
        CheckFault::UnknownPort(at) => push_spot(alloc, line, at),
        CheckFault::UnboundInput(at) => push_spot(alloc, line, at),
        CheckFault::TwoDrivers { at, first } => {
            push_spot(alloc, line, at)?;
            push_number(alloc, line, "first", u64::from(line_in(*first)))
        }
        CheckFault::Undriven(at) => push_spot(alloc, line, at),
        CheckFault::Latch(at) => push_spot(alloc, line, at),
        CheckFault::ReadBeforeWrite(at) => push_spot(alloc, line, at),
        CheckFault::NoMemory => Err(NoMemory),
    }
}

/// Adds the paths of a loop's signals, each behind one blank.
fn push_paths(line: &mut Vec<u8>, paths: &[Text]) -> Result<(), NoMemory>
    ensures { OnOk result (line.new.items ≡ line.old.items ++ flat_map behind_blank paths.now) }
{
    for path in paths {
        line.extend_from_slice(b" ")?;
        line.extend_from_slice(path.bytes())?;
    }
    Ok(())
}

/// Adds the fields of a refusal of a source. Want of memory has none.
pub(crate) fn push_design_fields(
    alloc: Global,
    line: &mut Vec<u8>,
    fault: &DesignFault,
) -> Result<(), NoMemory>
    ensures { OnOk result (line.new.items ≡ line.old.items ++ design_fields fault.now) }
{
    match fault {
        DesignFault::Text { file, fault } => push_text_fields(alloc, line, *file, *fault),
        DesignFault::TooManyFiles { line: at, name } => {
            push_line_and_name(alloc, line, *at, name)?;
            push_number(alloc, line, "limit", u64::from(FILES_MAX))
        }
        DesignFault::Elaboration(fault) => push_elab_fields(alloc, line, fault),
        DesignFault::Check(fault) => push_check_fields(alloc, line, fault),
        DesignFault::CombLoop(paths) => push_paths(line, paths.items()),
    }
}

/// Adds the fields of a refusal of a stimulus. Want of memory has none.
pub(crate) fn push_stimulus_fields(
    alloc: Global,
    line: &mut Vec<u8>,
    fault: StimFault,
) -> Result<(), NoMemory>
    ensures { OnOk result (line.new.items ≡ line.old.items ++ stimulus_fields fault) }
{
    match fault {
        StimFault::HeaderMismatch => Ok(()),
        StimFault::BadRow { row } => push_number(alloc, line, "row", row),
        StimFault::DoesNotFit { row, column } => {
            push_number(alloc, line, "row", row)?;
            push_number(alloc, line, "column", column)
        }
        StimFault::TooLong => Ok(()),
        StimFault::NoMemory => Err(NoMemory),
    }
}
