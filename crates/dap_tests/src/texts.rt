//! The texts of an editor's conversation: what is read from a message, and what is written.

use bv_core::Sample;
use dap_text::{
    EditorCmd, Happening, LineSet, Payload, Reason, event_text, read_message, response_text,
};
use std::alloc::Global;
use std::test::Fail;
use text_core::{Listed, NoMemory, Text};

/// Whether these bytes ask for two breakpoints in a file, the first with a condition.
fn asks_for_two(alloc: Global, body: &str) -> Result<bool, NoMemory> {
    let Some(message) = read_message(alloc, body.as_bytes())? else {
        return Ok(false);
    };
    let EditorCmd::SetBreakpoints { path, lines } = &message.cmd else {
        return Ok(false);
    };
    let two = match lines.items() {
        [first, second] => {
            first.line == 10
                && first.condition.is_some()
                && second.line == 12
                && second.condition.is_none()
        }
        _ => false,
    };
    Ok(
        two && message.seq == 3
            && message.command.text() == "setBreakpoints"
            && path.text() == "/w/a.hg",
    )
}

#[test]
fn a_message_is_read(rt: HostRuntime) -> Result<(), Fail> {
    let body =
        "{\"seq\":3,\"command\":\"setBreakpoints\",\"arguments\":{\"source\":{\"path\":\"/w/a.hg\"},\
                \"breakpoints\":[{\"line\":10,\"condition\":\"t == 8'h05\"},{\"line\":12,\"condition\":null}]}}";
    match asks_for_two(rt.alloc(), body) {
        Ok(asks) => assert!(rt; asks),
        Err(NoMemory) => assert!(rt; false),
    }
    Ok(())
}

/// Whether this is written for what is told of a message of number 3.
fn is_written(alloc: Global, payload: &Payload, text: &str) -> Result<bool, NoMemory> {
    let written = response_text(alloc, 4, 3, "setBreakpoints", payload)?;
    Ok(written.as_slice() == text.as_bytes())
}

/// A breakpoint of number 1 on line 10.
fn one_line(alloc: Global) -> Result<Payload, NoMemory> {
    let mut lines = Vec::new(alloc);
    lines.push(LineSet::Verified { id: 1, line: 10 })?;
    Ok(Payload::Breakpoints {
        lines: Listed::new(lines),
    })
}

/// Whether a list, a value and a refusal are written.
fn are_written(alloc: Global) -> Result<bool, NoMemory> {
    let name = Text::new(alloc, b"NoStop")?;
    let value = Sample::Unknown;
    Ok(
        is_written(
            alloc,
            &one_line(alloc)?,
            "Content-Length: 145\r\n\r\n{\"body\":{\"breakpoints\":[{\"id\":1,\"line\":10,\"verified\":true}]},\"command\":\"setBreakpoints\",\
         \"request_seq\":3,\"seq\":4,\"success\":true,\"type\":\"response\"}",
        )? && is_written(
            alloc,
            &Payload::Result { value },
            "Content-Length: 130\r\n\r\n{\"body\":{\"result\":\"x\",\"variablesReference\":0},\"command\":\"setBreakpoints\",\"request_seq\":3,\
         \"seq\":4,\"success\":true,\"type\":\"response\"}",
        )? && is_written(
            alloc,
            &Payload::Failed { name },
            "Content-Length: 105\r\n\r\n{\"command\":\"setBreakpoints\",\"message\":\"NoStop\",\"request_seq\":3,\"seq\":4,\"success\":false,\
         \"type\":\"response\"}",
        )?,
    )
}

/// Whether a stop is written.
fn is_told(alloc: Global) -> Result<bool, NoMemory> {
    let stop = Happening::Stopped {
        reason: Reason::Breakpoint,
        thread: 1,
    };
    let written = event_text(alloc, 6, stop)?;
    let text =
        "Content-Length: 111\r\n\r\n{\"body\":{\"allThreadsStopped\":true,\"reason\":\"breakpoint\",\"threadId\":1},\"event\":\"stopped\",\
                \"seq\":6,\"type\":\"event\"}";
    Ok(written.as_slice() == text.as_bytes())
}

#[test]
fn responses_and_events_are_written(rt: HostRuntime) -> Result<(), Fail> {
    let alloc = rt.alloc();
    match are_written(alloc) {
        Ok(are) => assert!(rt; are),
        Err(NoMemory) => assert!(rt; false),
    }
    match is_told(alloc) {
        Ok(is) => assert!(rt; is),
        Err(NoMemory) => assert!(rt; false),
    }
    Ok(())
}
