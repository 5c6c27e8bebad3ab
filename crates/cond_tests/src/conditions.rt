//! Conditions at a place where `a`, `b`, `c`, `k`, `w`, `t#0`, `t#7` and `u#0.q` are constants, `n` is at a node whose value is not
//! known, `gone` was removed and `later` is unset.

use bv_core::{Binding, Bv, NodeId, Ref, Sample, text_of};
use cond_lang::{BindEnd, Cond, CondFault, CondText, bind, read_cond, value_of};
use std::alloc::Global;
use std::test::Fail;

static CASES: [(&[u8], &str); 75] = [
    (b"(a == 8'h05)", "1'h1"),
    (b"(a != 8'd5)", "1'h0"),
    (b"(a < b)", "1'h1"),
    (b"(b < a)", "1'h0"),
    (b"(a <= a)", "1'h1"),
    (b"(a + b)", "8'hff"),
    (b"(a - b)", "8'h0b"),
    (b"(b[7:4] * k)", "4'h7"),
    (b"((a << 2'h1) | c8)", "unknown c8"),
    (b"(b >> 8'd4)", "8'h0f"),
    (b"cat(k, c)", "5'h13"),
    (b"~(k)", "4'h6"),
    (b"all(c)", "1'h1"),
    (b"parity(b)", "1'h0"),
    (b"zext(k, 8)", "8'h09"),
    (b"mux(c, a, b)", "8'h05"),
    (b"mux(c, a, n)", "x"),
    (b"(n == n)", "x"),
    (b" // a comment\n( // (\n a\t== 8'h05 )\r\n", "1'h1"),
    (b"t#0", "8'h10"),
    (b"t#07", "8'h17"),
    (b"t # 7", "8'h17"),
    (b"u#0.q", "1'h0"),
    (b"u#00 . q", "1'h0"),
    (b"t#1", "unknown t#1"),
    (b"u.q", "unknown u.q"),
    (b"(zz == 1'h0)", "unknown zz"),
    (b"(gone == later)", "removed gone"),
    (b"(later == gone)", "unset later"),
    (b"((a == k) & gone)", "removed gone"),
    (b"((a == k) & u#1.q)", "unknown u#1.q"),
    (b"mux(n, later, zz)", "unset later"),
    (b"(a == k)", "width 0"),
    (b"  (c & (a == k))", "width 7"),
    (b"((a == k) & (a == c))", "width 1"),
    (b"(a + 8'h100)", "width 5"),
    (b"(a == 0'h0)", "width 6"),
    (b"(a == 129'h0)", "width 6"),
    (b"(c & cat(w, c))", "width 5"),
    (b"(c & cat(w[126:0], c))", "width 0"),
    (b"(c & zext(a, 7))", "width 5"),
    (b"(c & zext(a, 129))", "width 5"),
    (b"(c & a[8:0])", "width 5"),
    (b"(c & a[2:3])", "width 5"),
    (b"(c & a[999999999999:0])", "width 5"),
    (b"(c & (a + b)[8:8])", "width 5"),
    (b"mux(a, a, k)", "width 0"),
    (b"mux(a, (k + c), k)", "width 7"),
    (b"(a == /**/ b)", "at 6"),
    (b"(en ==", "at 6"),
    (b"", "at 0"),
    (b"  // a", "at 6"),
    (b"(a == b", "at 7"),
    (b"(a == b) c", "at 9"),
    (b"a b $", "at 2"),
    (b"(a $ b", "at 3"),
    (b"a $", "at 2"),
    (b"a // \x80", "at 5"),
    (b"a // \x80\n b", "at 5"),
    (b"a b // \x80", "at 2"),
    (b"\xc3\xa4", "at 0"),
    (b"(a == 8')", "at 6"),
    (b"(a == 8'h)", "at 6"),
    (b"(a == 8'q1)", "at 6"),
    (b"8'", "at 0"),
    (b"8'h", "at 0"),
    (b"(a == 12ab)", "at 6"),
    (b"t#i", "at 2"),
    (b"t#(1 + 2)", "at 2"),
    (b"bits(8, 5)", "at 0"),
    (b"(a == 5)", "at 6"),
    (b"a[i:0]", "at 2"),
    (b"a[3:0][1:0]", "at 6"),
    (b"(a == module)", "at 6"),
    (
        b"~(~(~(~(~(~(~(~(~(~(~(~(~(~(~(~(~(~(~(~(~(~(~(~(~(~(~(~(~(~(~(~(~(~(~(~(~(~(~(~(~(~(~(~(~(~(~(~(~(~(~(~(~(~(~(~(~(~(~(~(~(~(~(~(~(",
        "at 129",
    ),
];

/// A constant of this width and number.
fn constant(width: u8, number: u128) -> Option<Binding> {
    Some(Binding::Value(Ref::Const(Bv::make(width, number)?)))
}

/// What names stand for at the place.
fn found(name: &str) -> Option<Binding> {
    match name {
        "a" => constant(8, 0x05),
        "b" => constant(8, 0xfa),
        "c" => constant(1, 1),
        "k" => constant(4, 0x9),
        "w" => constant(128, 0),
        "t#0" => constant(8, 0x10),
        "t#7" => constant(8, 0x17),
        "u#0.q" => constant(1, 0),
        "n" => Some(Binding::Value(Ref::Node(NodeId(0), 8))),
        "gone" => Some(Binding::Removed),
        "later" => Some(Binding::Unset),
        _ => None,
    }
}

/// What is told of a condition that is bound.
fn told_value(alloc: Global, cond: &Cond) -> Result<String, Fail> {
    match value_of(cond, &|_| Sample::Unknown) {
        Sample::Known(value) => match text_of(alloc, value) {
            Ok(text) => Ok(text),
            Err(_) => Ok(format!(in alloc; "no memory")?),
        },
        Sample::Unknown => Ok(format!(in alloc; "x")?),
    }
}

/// What is told of a condition that is not bound.
fn told_end(alloc: Global, end: BindEnd) -> Result<String, Fail> {
    match end {
        BindEnd::Unknown { name } => Ok(format!(in alloc;
            "unknown {}",
            std::str::from_utf8(name.bytes())?
        )?),
        BindEnd::Removed { name } => Ok(format!(in alloc;
            "removed {}",
            std::str::from_utf8(name.bytes())?
        )?),
        BindEnd::Unset { name } => Ok(format!(in alloc;
            "unset {}",
            std::str::from_utf8(name.bytes())?
        )?),
        BindEnd::Width { offset } => Ok(format!(in alloc; "width {offset}")?),
        BindEnd::NoMemory => Ok(format!(in alloc; "no memory")?),
    }
}

/// What is told of a condition at the place.
fn told_at(alloc: Global, text: &CondText) -> Result<String, Fail> {
    match bind(alloc, text, &|name: &str| found(name)) {
        Ok(cond) => told_value(alloc, &cond),
        Err(end) => told_end(alloc, end),
    }
}

/// What is told of a text.
fn told(alloc: Global, text: &[u8]) -> Result<String, Fail> {
    match read_cond(alloc, text) {
        Ok(text) => told_at(alloc, &text),
        Err(CondFault::At { offset }) => Ok(format!(in alloc; "at {offset}")?),
        Err(CondFault::NoMemory) => Ok(format!(in alloc; "no memory")?),
    }
}

#[test]
fn conditions_are_told_as_the_table_says(rt: HostRuntime) -> Result<(), Fail> {
    for (text, wanted) in &CASES {
        let found = told(rt.alloc(), *text)?;
        assert!(rt; found.as_str() == *wanted, "{wanted} {found}");
    }
    Ok(())
}
