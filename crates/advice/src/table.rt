//! The sentences: for each refusal of a source and a stimulus what it means and what to do, and for other ends of the program one sentence.
//!
//! docs/FAULTS.md has the same sentences, and `outside/advice` compares the two. They are ordered by the numbers of the refusals.

/// A refusal in words.
#[derive(Clone, Copy)]
pub struct Advice {
    /// The name that stands in the line of the refusal.
    pub name: &'static str,
    /// What the refusal means.
    pub means: &'static str,
    /// What to do.
    pub todo: &'static str,
}

/// The refusals of the files of a design, from 1 on.
pub const DESIGN: [Advice; 21] = [
    Advice {
        name: "TooLong",
        means: "the source has more than 1 MiB",
        todo: "generate with loops what is written out",
    },
    Advice {
        name: "NotAscii",
        means: "a byte is no printable ASCII, blank or line end, which comments may not have either",
        todo: "write plain letters, quotes and dashes",
    },
    Advice {
        name: "BadToken",
        means: "no token begins here, a number or literal is too great, or a letter stands directly behind a number",
        todo: "write a literal with its width and base, as 8'hff or 8'd255, and begin a name with a letter; commonly '>', '>=', '!', '?', '/' or \
               '%' stands here, which are no operators",
    },
    Advice {
        name: "Syntax",
        means: "no source goes on with a token of this line, or it is the 65th open bracket, or the text ends too early",
        todo: "look here and at the end of the line before: commonly a ';' is missing, an operator has no brackets round its application, or there \
               is '&&', 'else if', a bare 1 as a value, '=' in an ff, [0] for [0:0], or a keyword as a name",
    },
    Advice {
        name: "UnknownModule",
        means: "not exactly one module has this name",
        todo: "look how it is spelled, and that the module stands once, in this file or in one that is imported",
    },
    Advice {
        name: "UnknownParameter",
        means: "an integer names nothing in scope, or an argument names no parameter or is given twice, or a parameter is declared twice",
        todo: "declare the parameter once, or take the name of one that is there",
    },
    Advice {
        name: "ElabRange",
        means: "an integer leaves -2^62 to 2^62, a loop has more than 4,096 turns, or the index of a family is negative",
        todo: "look at the bounds of the loops around this line",
    },
    Advice {
        name: "TooDeep",
        means: "an instance is 33 below the top; mostly a module instantiates itself without an end",
        todo: "put the inst into a gen if that ends it",
    },
    Advice {
        name: "TooLarge",
        means: "the design has more than there may be of what the line tells",
        todo: "give the top smaller parameters",
    },
    Advice {
        name: "UnknownName",
        means: "a read names no signal, nor a let before its statement; or what is assigned is no wire or output, with '<=' no register; or there \
                is no such child",
        todo: "declare it, or look how it is spelled; read a let only behind its statement, in the same block",
    },
    Advice {
        name: "DuplicateName",
        means: "two signals or children have this name, or a let has that of one of them or of another let of its block",
        todo: "rename one, or make it a family with #",
    },
    Advice {
        name: "BadWidth",
        means: "a width is not 1 to 128, a literal does not fit into its own, or a slice, read or assigned, does not lie from 0 to 127",
        todo: "widen the literal together with what it is for; a slice is [high:low]",
    },
    Advice {
        name: "WidthMismatch",
        means: "two widths do not go together: 'have' stands there, and 'want' is needed; a literal of an arm has the width of the case's \
                value, and an assigned slice lies in its target",
        todo: "widen by zext(value, width), or take a slice [high:low]",
    },
    Advice {
        name: "UnknownPort",
        means: "a connection names no input of the child, or a read names no output of it",
        todo: "take a port of the child's module; nothing else of it is seen from outside",
    },
    Advice {
        name: "UnboundInput",
        means: "an input of the child has no connection",
        todo: "connect it, as u : M { input = value; }",
    },
    Advice {
        name: "TwoDrivers",
        means: "a second block assigns the signal, or a second connection the input; 'first' is the line of the first one",
        todo: "put the assignments into one block",
    },
    Advice {
        name: "Undriven",
        means: "no block assigns this wire or output",
        todo: "assign it in a comb, or take it away; what only an ff writes is a reg",
    },
    Advice {
        name: "Latch",
        means: "some path through the block leaves the name or a bit of it without a value, and hardware would have to remember it",
        todo: "give it a value before the if or the case, or in an else or a default",
    },
    Advice {
        name: "ReadBeforeWrite",
        means: "the block reads a name of its own, whole or in part, where some path to there has not assigned each bit of it; the conditions \
                do not count",
        todo: "assign it first",
    },
    Advice {
        name: "CombLoop",
        means: "each of these signals is computed from the next one, and the last from the first, within one cycle; a child's output and its \
                parent's name for it have the same path",
        todo: "put a register into the ring",
    },
    Advice {
        name: "TooManyFiles",
        means: "this import names another file, and the design has 64 already",
        todo: "put modules that belong together into one file",
    },
];

/// The refusals of a stimulus, from 1 on.
pub const STIMULUS: [Advice; 4] = [
    Advice {
        name: "HeaderMismatch",
        means: "the first line is not the names of the top's inputs, in the order of their declarations",
        todo: "write these names into the first line, apart by blanks",
    },
    Advice {
        name: "BadRow",
        means: "the row has not one number for each input; rows count from 0, behind the line with the names",
        todo: "write decimal digits, or 0x and hexadecimal ones, one number for each input",
    },
    Advice {
        name: "DoesNotFit",
        means: "the number needs more bits than its input has; rows and columns count from 0",
        todo: "take a smaller number, or widen the input",
    },
    Advice {
        name: "TooLong",
        means: "the stimulus has more than 64 MiB, 1,000,000 rows or 16,000,000 values, which are rows times inputs and registers",
        todo: "take fewer rows",
    },
];

/// The sentences for ends of the program by their status.
pub const SENTENCES: [(u8, &str); 7] = [
    (2, "`hgdb --help` tells the commands"),
    (
        5,
        "the symbol file, the dump file or how they go together is refused; docs/REPLAY.md tells what to do",
    ),
    (
        6,
        "the requests have more than 16 MiB; give the session fewer of them",
    ),
    (7, "a file, or what an editor sends, was not read"),
    (
        8,
        "standard output took no more, as a full disk or a reader that has gone; a front of the text was written",
    ),
    (9, "memory ran out; a front of the text was written"),
    (
        10,
        "what an editor sends is not framed as its protocol says; what was answered before was written",
    ),
];

/// The sentences on a refusal of this kind and number, where there are some: the kind is the first word of its line.
pub fn advice_on(kind: &str, number: usize) -> Option<Advice> {
    let place = number.checked_sub(1)?;
    match kind {
        "design" => DESIGN.get(place).copied(),
        "stimulus" => STIMULUS.get(place).copied(),
        _ => None,
    }
}

/// The sentence on an end with this status, where there is one.
pub fn sentence_on(status: u8) -> Option<&'static str> {
    for (of, sentence) in SENTENCES {
        if of == status {
            return Some(sentence);
        }
    }
    None
}
