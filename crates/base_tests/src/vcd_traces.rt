//! Traces that are read, with every scope, declaration and change.

use crate::vcd_texts::{COMMERCIAL, DOTTED, FOREIGN, ICARUS, OWN, VERILATOR};
use std::alloc::Global;
use std::test::Fail;
use text_core::NoMemory;
use vcd_read::{Vcd, read_vcd};

/// A scope: its number, the number of the one around it, its name and its path.
type Scope = (u32, u32, &'static str, &'static str);

/// A variable: the number of its scope, its name, code and size, and whether its values are bits.
type Var = (u32, &'static str, u32, u32, bool);

/// A change: its time, its code and its digits.
type Change = (u64, u32, &'static str);

/// A path, and the places of the variables of that scope.
type Group = (&'static str, &'static [u64]);

/// What a text tells: its scopes, its variables, which of them stand in which scope, and its changes.
struct Told {
    text: &'static [u8],
    scopes: &'static [Scope],
    vars: &'static [Var],
    groups: &'static [Group],
    changes: &'static [Change],
}

static TOLD: [Told; 6] = [
    Told {
        text: OWN,
        scopes: &[(1, 0, "A", "A")],
        vars: &[
            (1, "clk", 0, 1, true),
            (1, "en", 1, 1, true),
            (1, "_1", 2, 8, true),
            (1, "d", 3, 8, true),
            (1, "_3", 4, 8, true),
            (1, "_4", 5, 8, true),
            (1, "_5", 6, 1, true),
            (1, "q", 7, 8, true),
        ],
        groups: &[("A", &[0, 1, 2, 3, 4, 5, 6, 7]), ("", &[]), ("clk", &[])],
        changes: &[
            (0, 0, "0"),
            (0, 1, "1"),
            (0, 2, "00000000"),
            (0, 3, "00000101"),
            (0, 4, "00000101"),
            (0, 5, "00000101"),
            (0, 6, "1"),
            (0, 7, "00000101"),
            (5, 0, "1"),
            (5, 1, "0"),
            (5, 2, "00000101"),
            (5, 3, "00001001"),
            (5, 4, "00001110"),
            (10, 0, "0"),
            (15, 0, "1"),
            (15, 1, "1"),
            (15, 3, "11111111"),
            (15, 4, "00000100"),
            (15, 5, "00000100"),
            (15, 7, "00000100"),
            (20, 0, "0"),
            (25, 0, "1"),
            (30, 0, "0"),
        ],
    },
    Told {
        text: FOREIGN,
        scopes: &[(1, 0, "tb", "tb"), (2, 1, "dut", "tb.dut")],
        vars: &[
            (2, "clk", 0, 1, true),
            (2, "en", 1, 1, true),
            (2, "d", 2, 8, true),
            (2, "_1", 3, 8, true),
            (2, "_4", 4, 8, true),
        ],
        groups: &[("tb", &[]), ("tb.dut", &[0, 1, 2, 3, 4])],
        changes: &[
            (0, 0, "0"),
            (0, 1, "x"),
            (0, 2, "x"),
            (0, 3, "0"),
            (0, 4, "1111"),
            (3, 0, "1"),
            (3, 1, "1"),
            (3, 2, "101"),
            (6, 0, "0"),
            (9, 0, "1"),
            (9, 3, "111"),
            (12, 0, "0"),
        ],
    },
    Told {
        text: ICARUS,
        scopes: &[(1, 0, "tb", "tb"), (2, 1, "loop[0]", "tb.loop[0]")],
        vars: &[
            (1, "q", 0, 8, true),
            (1, "clk", 1, 1, true),
            (1, "level", 2, 64, false),
            (2, "N", 3, 32, true),
        ],
        groups: &[("tb", &[0, 1, 2]), ("tb.loop[0]", &[3]), ("loop[0]", &[])],
        changes: &[
            (0, 3, "100"),
            (0, 1, "0"),
            (0, 0, "x"),
            (5, 1, "1"),
            (5, 0, "0000zzzz"),
            (10, 1, "x"),
            (10, 0, "x"),
            (20, 1, "1"),
            (20, 0, "11"),
        ],
    },
    Told {
        text: VERILATOR,
        scopes: &[(1, 0, "TOP", "TOP"), (2, 1, "top", "TOP.top")],
        vars: &[
            (1, "clk", 0, 1, true),
            (2, "clk", 0, 1, true),
            (2, "data", 1, 8, true),
        ],
        groups: &[("TOP", &[0]), ("TOP.top", &[1, 2]), ("TOP.", &[])],
        changes: &[(0, 0, "0"), (0, 1, "00000000"), (5, 0, "1"), (5, 1, "1010")],
    },
    Told {
        text: COMMERCIAL,
        scopes: &[
            (1, 0, "top", "top"),
            (2, 1, "\\esc+aped", "top.\\esc+aped"),
            (3, 1, "\\esc+aped", "top.\\esc+aped"),
        ],
        vars: &[
            (2, "bus", 0, 4, true),
            (2, "text", 1, 1, false),
            (1, "vdd", 2, 7, true),
            (0, "alone", 3, 1, true),
        ],
        groups: &[("top.\\esc+aped", &[0, 1]), ("top", &[2]), ("", &[3])],
        changes: &[
            (0, 3, "1"),
            (12, 0, "Xz1"),
            (12, 2, "Z"),
            (12, 2, "z"),
            (12, 0, "X"),
            (13, 3, "0"),
            (13, 3, "1"),
        ],
    },
    Told {
        text: DOTTED,
        scopes: &[
            (1, 0, "a.b", "a.b"),
            (2, 0, "a", "a"),
            (3, 2, "bc", "a.bc"),
            (4, 2, "b", "a.b"),
            (5, 4, "c.d", "a.b.c.d"),
            (6, 4, "c", "a.b.c"),
            (7, 6, "d", "a.b.c.d"),
            (8, 0, "a", "a"),
            (9, 8, "b", "a.b"),
        ],
        vars: &[
            (1, "x", 0, 1, true),
            (3, "x", 0, 1, true),
            (4, "y", 0, 1, true),
            (5, "x", 0, 1, true),
            (7, "y", 0, 1, true),
            (4, "z", 0, 1, true),
            (9, "x", 0, 1, true),
            (8, "w", 0, 1, true),
        ],
        groups: &[
            ("a", &[7]),
            ("a.b", &[0, 2, 5, 6]),
            ("a.bc", &[1]),
            ("a.b.c", &[]),
            ("a.b.c.d", &[3, 4]),
            ("b", &[]),
            ("a.b.c.d.", &[]),
        ],
        changes: &[],
    },
];

/// Whether a scope is this one.
fn is_scope(vcd: &Vcd, wanted: &Scope) -> bool {
    let (number, parent, name, path) = *wanted;
    if number == 0 || u64::from(number) > vcd.scopes() {
        return false;
    }
    let scope = vcd.scope(number);
    scope.parent == parent
        && scope.name == name.as_bytes()
        && vcd.is_scope(number, path)
        && vcd.has_scope(path)
}

/// Whether a variable is this one.
fn is_var(vcd: &Vcd, i: u64, wanted: &Var) -> bool {
    if i >= vcd.vars() {
        return false;
    }
    let (scope, name, code, size, counted) = *wanted;
    let var = vcd.var(i);
    var.scope == scope
        && var.name == name.as_bytes()
        && var.code == code
        && var.size == size
        && var.counted == counted
}

/// Whether a change is this one.
fn is_change(vcd: &Vcd, i: u64, wanted: &Change) -> bool {
    let (time, code, digits) = *wanted;
    i < vcd.changes()
        && vcd.time(i) == time
        && vcd.code(i) == code
        && vcd.digits(i) == digits.as_bytes()
}

/// Whether these and no others are a file's scopes.
fn has_scopes(vcd: &Vcd, wanted: &[Scope]) -> bool {
    for scope in wanted {
        if !is_scope(vcd, scope) {
            return false;
        }
    }
    vcd.scopes() == wanted.len() as u64
        && !vcd.has_scope("")
        && !vcd.has_scope("dut")
        && !vcd.has_scope("tb.")
}

/// Whether these and no others are a file's variables.
fn has_vars(vcd: &Vcd, wanted: &[Var]) -> bool {
    for (i, var) in wanted.iter().enumerate() {
        if !is_var(vcd, i as u64, var) {
            return false;
        }
    }
    vcd.vars() == wanted.len() as u64
}

/// Whether these and no others are the variables of scopes.
fn has_groups(alloc: Global, vcd: &Vcd, wanted: &[Group]) -> Result<bool, NoMemory> {
    for (path, places) in wanted {
        let found = vcd.vars_in(alloc, path)?;
        if found.as_slice() != *places {
            return Ok(false);
        }
    }
    Ok(true)
}

/// Whether these and no others are a file's changes.
fn has_changes(vcd: &Vcd, wanted: &[Change]) -> bool {
    for (i, change) in wanted.iter().enumerate() {
        if !is_change(vcd, i as u64, change) {
            return false;
        }
    }
    vcd.changes() == wanted.len() as u64
}

#[test]
fn texts_tell_every_declaration_and_change(rt: HostRuntime) -> Result<(), Fail> {
    for (i, told) in TOLD.iter().enumerate() {
        let vcd = read_vcd(rt.alloc(), told.text)?;
        assert!(rt; has_scopes(&vcd, told.scopes), "scopes {i}");
        assert!(rt; has_vars(&vcd, told.vars), "variables {i}");
        assert!(rt;
            matches!(has_groups(rt.alloc(), &vcd, told.groups), Ok(true)),
            "groups {i}"
        );
        assert!(rt; has_changes(&vcd, told.changes), "changes {i}");
    }
    Ok(())
}
