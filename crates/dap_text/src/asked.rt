//! Reads a message: the table of commands, and the arguments of each.
//!
//! Decides: all arguments of a message are judged before anything of it is answered, so that one that is wrong has changed nothing.

ghost use Rattle.std.specs.Prelude.{◌≡◌, IfOk, codes, option_and_then, option_map};
ghost use Rattle.serde_json.specs.Find.{as_bool, as_str, get};
ghost use Rattle.serde_json.specs.View.{items_view, view};
ghost use Rattle.symtab_json.specs.Entries.{kept_if, told_count, told_items, told_list, told_member};
ghost use Rattle.dap_text.specs.declared.message.EditorCmd.TheVariants.{Scopes, StackTrace, Variables};
ghost use Rattle.dap_text.specs.Messages.{arguments, cmd_in, count_argument, evaluate_by, frame_by, initialize_by, is_false, is_line, is_seq, line_asked, line_by, lines_asked, message_of, path_asked, plain_cmd, set_by, text_argument, told_message};

use crate::message::{EditorCmd, LineAsked, Message};
use machine_core::Utf8;
use req_json::{count_under, json_of, optional_text_under, text_under};
use serde_json::Value;
use std::alloc::Global;
use text_core::{Listed, NoMemory};

/// The lines of a file are below this.
const MOST_LINES: u64 = 1 << 24;

/// The arguments of a message, if it has some.
fn arguments(value: &Value) -> Option<&Value>
    ensures { option_map (λ args. view args.now) result ≡ arguments (view value.now) }
{
    value.get("arguments")
}

/// An argument, of any kind.
fn argument<'a>(value: &'a Value, key: &str) -> Option<&'a Value>
    ensures { option_map (λ found. view found.now) result ≡ option_and_then (get key.now) (arguments (view value.now)) }
{
    match arguments(value) {
        Some(args) => args.get(key),
        None => None,
    }
}

/// An argument that is a whole number.
fn count_argument(value: &Value, key: &str) -> Option<u64>
    ensures { result ≡ count_argument key.now (view value.now) }
{
    match arguments(value) {
        Some(args) => count_under(args, key),
        None => None,
    }
}

/// A text under a key, as one of its own.
fn own_text_under(alloc: Global, value: &Value, key: &str) -> Result<Option<Utf8>, NoMemory>
    ensures { IfOk result (λ text. text ≡ told_member as_str key.now (view value.now)) }
{
    match text_under(value, key) {
        Some(text) => Ok(Some(Utf8::new(String::from_str(alloc, text)?))),
        None => Ok(None),
    }
}

/// An argument that is a text.
fn text_argument(alloc: Global, value: &Value, key: &str) -> Result<Option<Utf8>, NoMemory>
    ensures { IfOk result (λ text. text ≡ text_argument key.now (view value.now)) }
{
    match arguments(value) {
        Some(args) => own_text_under(alloc, args, key),
        None => Ok(None),
    }
}

/// Whether a truth is there, and is false.
fn is_false(found: Option<bool>) -> bool
    ensures { result ≡ is_false found }
{
    match found {
        Some(is) => !is,
        None => false,
    }
}

/// What `initialize` asks.
fn initialize_asked(value: &Value) -> EditorCmd
    ensures { result ≡ initialize_by (arguments (view value.now)) }
{
    let Some(args) = arguments(value) else {
        return EditorCmd::Initialize;
    };
    if !args.is_object() {
        return EditorCmd::BadShape;
    }
    if is_false(args.get("linesStartAt1").and_then(Value::as_bool)) {
        return EditorCmd::BadShape;
    }
    EditorCmd::Initialize
}

/// A line that is asked for; None where it is wrong.
fn line_number(value: &Value) -> Option<u32>
    ensures { result ≡ kept_if is_line (told_member told_count (codes "line") (view value.now)) }
{
    match count_under(value, "line") {
        Some(line) if line < MOST_LINES => Some(line as u32),
        _ => None,
    }
}

/// An entry of `setBreakpoints`; None where it is wrong.
fn line_asked(alloc: Global, value: &Value) -> Result<Option<LineAsked>, NoMemory>
    ensures { IfOk result (λ found. found ≡ line_asked (view value.now)) }
{
    let Some(line) = line_number(value) else {
        return Ok(None);
    };
    match optional_text_under(alloc, value, "condition")? {
        Some(condition) => Ok(Some(LineAsked { line, condition })),
        None => Ok(None),
    }
}

/// The entries of `setBreakpoints`; None where one is wrong.
fn items_asked(alloc: Global, values: &[Value]) -> Result<Option<Vec<LineAsked>>, NoMemory>
    ensures { IfOk result (λ found. option_map (λ lines. lines.items) found ≡ told_items line_asked (items_view values.now)) }
{
    let mut lines = Vec::new(alloc);
    for value in values {
        let Some(line) = line_asked(alloc, value)? else {
            return Ok(None);
        };
        lines.push(line)?;
    }
    Ok(Some(lines))
}

/// The list of what `setBreakpoints` asks for; None where it is none.
fn list_asked(alloc: Global, value: &Value) -> Result<Option<Listed<LineAsked>>, NoMemory>
    ensures { IfOk result (λ found. found ≡ told_list line_asked (view value.now)) }
{
    let Some(values) = value.as_array() else {
        return Ok(None);
    };
    match items_asked(alloc, values)? {
        Some(lines) => Ok(Some(Listed::new(lines))),
        None => Ok(None),
    }
}

/// The lines that `setBreakpoints` asks for.
fn lines_asked(alloc: Global, value: &Value) -> Result<Option<Listed<LineAsked>>, NoMemory>
    ensures { IfOk result (λ found. found ≡ lines_asked (view value.now)) }
{
    match argument(value, "breakpoints") {
        Some(list) => list_asked(alloc, list),
        None => Ok(None),
    }
}

/// The path of the file that `setBreakpoints` asks for.
fn path_asked(alloc: Global, value: &Value) -> Result<Option<Utf8>, NoMemory>
    ensures { IfOk result (λ path. path ≡ path_asked (view value.now)) }
{
    match argument(value, "source") {
        Some(source) => own_text_under(alloc, source, "path"),
        None => Ok(None),
    }
}

/// What `setBreakpoints` asks.
fn set_asked(alloc: Global, value: &Value) -> Result<EditorCmd, NoMemory>
    ensures { IfOk result (λ cmd. cmd ≡ set_by (path_asked (view value.now)) (lines_asked (view value.now))) }
{
    let Some(path) = path_asked(alloc, value)? else {
        return Ok(EditorCmd::BadShape);
    };
    match lines_asked(alloc, value)? {
        Some(lines) => Ok(EditorCmd::SetBreakpoints { path, lines }),
        None => Ok(EditorCmd::BadShape),
    }
}

/// What `evaluate` asks.
fn evaluate_asked(alloc: Global, value: &Value) -> Result<EditorCmd, NoMemory>
    ensures { IfOk result (λ cmd. cmd ≡ evaluate_by (text_argument (codes "expression") (view value.now)) (count_argument (codes "frameId") (view value.now))) }
{
    let Some(expression) = text_argument(alloc, value, "expression")? else {
        return Ok(EditorCmd::BadShape);
    };
    match count_argument(value, "frameId") {
        Some(frame) => Ok(EditorCmd::Evaluate { expression, frame }),
        None => Ok(EditorCmd::BadShape),
    }
}

/// What `stackTrace` asks.
fn stack_asked(value: &Value) -> EditorCmd
    ensures { result ≡ frame_by StackTrace (count_argument (codes "threadId") (view value.now)) }
{
    match count_argument(value, "threadId") {
        Some(thread) => EditorCmd::StackTrace { thread },
        None => EditorCmd::BadShape,
    }
}

/// What `scopes` asks.
fn scopes_asked(value: &Value) -> EditorCmd
    ensures { result ≡ frame_by Scopes (count_argument (codes "frameId") (view value.now)) }
{
    match count_argument(value, "frameId") {
        Some(frame) => EditorCmd::Scopes { frame },
        None => EditorCmd::BadShape,
    }
}

/// What `variables` asks.
fn variables_asked(value: &Value) -> EditorCmd
    ensures { result ≡ frame_by Variables (count_argument (codes "variablesReference") (view value.now)) }
{
    match count_argument(value, "variablesReference") {
        Some(reference) => EditorCmd::Variables { reference },
        None => EditorCmd::BadShape,
    }
}

/// What a command of this name asks that has no arguments.
fn plain_cmd(name: &str) -> EditorCmd
    ensures { result ≡ plain_cmd name.now }
{
    match name {
        "launch" => EditorCmd::Launch,
        "attach" => EditorCmd::Launch,
        "configurationDone" => EditorCmd::ConfigurationDone,
        "continue" => EditorCmd::Continue,
        "reverseContinue" => EditorCmd::ReverseContinue,
        "next" => EditorCmd::Step,
        "stepIn" => EditorCmd::Step,
        "stepOut" => EditorCmd::Step,
        "stepBack" => EditorCmd::StepBack,
        "pause" => EditorCmd::Pause,
        "threads" => EditorCmd::Threads,
        "disconnect" => EditorCmd::Disconnect,
        _ => EditorCmd::UnknownCmd,
    }
}

/// What a command of this name asks.
fn cmd_in(alloc: Global, name: &str, value: &Value) -> Result<EditorCmd, NoMemory>
    ensures { IfOk result (λ cmd. cmd ≡ cmd_in name.now (view value.now)) }
{
    match name {
        "initialize" => Ok(initialize_asked(value)),
        "setBreakpoints" => set_asked(alloc, value),
        "stackTrace" => Ok(stack_asked(value)),
        "scopes" => Ok(scopes_asked(value)),
        "variables" => Ok(variables_asked(value)),
        "evaluate" => evaluate_asked(alloc, value),
        _ => Ok(plain_cmd(name)),
    }
}

/// The number of a message; None where it is wrong.
fn seq_of(value: &Value) -> Option<u64>
    ensures { result ≡ kept_if is_seq (told_member told_count (codes "seq") (view value.now)) }
{
    match count_under(value, "seq") {
        Some(seq) if seq < 1 << 63 => Some(seq),
        _ => None,
    }
}

/// The message that a JSON value is; None where it is none.
fn message_of(alloc: Global, value: &Value) -> Result<Option<Message>, NoMemory>
    ensures { IfOk result (λ found. found ≡ message_of (view value.now)) }
{
    let Some(seq) = seq_of(value) else {
        return Ok(None);
    };
    let Some(command) = own_text_under(alloc, value, "command")? else {
        return Ok(None);
    };
    let cmd = cmd_in(alloc, command.text(), value)?;
    Ok(Some(Message { seq, command, cmd }))
}

/// The message that the bytes of a body are: a JSON object with a whole `seq` from 0 to 2^63-1 and a text `command`, which asks what
/// the table of commands says. None of other bytes. Fails only where memory runs out.
pub fn read_message(alloc: Global, body: &[u8]) -> Result<Option<Message>, NoMemory>
    ensures { IfOk result (λ found. found ≡ told_message body.now) }
{
    match json_of(alloc, body)? {
        Some(value) => message_of(alloc, &value),
        None => Ok(None),
    }
}
