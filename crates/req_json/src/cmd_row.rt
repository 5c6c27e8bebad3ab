//! The table of commands: in each row the name of a command, and its fields in their order, each of its kind.
//!
//! A command more is a row more, and a field more an entry in its row.

ghost use Rattle.std.specs.Prelude.{◌≡◌, Ok, IfOk, IfErr, option_map};
ghost use Rattle.serde_json.specs.View.{view};
ghost use Rattle.req_json.specs.Asked.{RowIsWrong, row_in};

use crate::field::{
    FieldFault, FieldName, optional_text, required_count, required_place, required_text,
};
use machine_core::Cmd;
use serde_json::Value;
use std::alloc::Global;

/// The command of this name with its fields, or the first of them that is wrong; None where no command has the name.
pub(crate) fn row_in(alloc: Global, name: &str, value: &Value) -> Result<Option<Cmd>, FieldFault>
    ensures ok { IfOk result (λ found. row_in name.now (view value.now) ≡ option_map Ok found) }
    ensures err { IfErr result (RowIsWrong (row_in name.now (view value.now))) }
{
    Ok(Some(match name {
        "break" => Cmd::Break {
            line: required_place(value)?,
            instance: optional_text(alloc, value, FieldName::Instance)?,
            cond: optional_text(alloc, value, FieldName::Cond)?,
        },
        "delete" => Cmd::Delete {
            bp: required_count(value, FieldName::Bp)?,
        },
        "watch" => Cmd::Watch {
            line: required_place(value)?,
            instance: required_text(alloc, value, FieldName::Instance)?,
            expr: required_text(alloc, value, FieldName::Expr)?,
        },
        "unwatch" => Cmd::Unwatch {
            wp: required_count(value, FieldName::Wp)?,
        },
        "continue" => Cmd::Continue,
        "reverse" => Cmd::Reverse,
        "step" => Cmd::Step {
            instance: optional_text(alloc, value, FieldName::Instance)?,
        },
        "back" => Cmd::Back {
            instance: optional_text(alloc, value, FieldName::Instance)?,
        },
        "pause" => Cmd::Pause,
        "threads" => Cmd::Threads,
        "values" => Cmd::Values {
            instance: required_text(alloc, value, FieldName::Instance)?,
        },
        "eval" => Cmd::Eval {
            instance: required_text(alloc, value, FieldName::Instance)?,
            expr: required_text(alloc, value, FieldName::Expr)?,
        },
        "drop" => Cmd::Drop {
            k: required_count(value, FieldName::K)?,
        },
        "status" => Cmd::Status,
        "bye" => Cmd::Bye,
        _ => return Ok(None),
    }))
}
