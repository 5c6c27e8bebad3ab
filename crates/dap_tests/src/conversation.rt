//! A conversation over a small table and a trace in which its one node is always 1: of each command, what is answered to it, and each of its
//! refusals.

ghost use Rattle.std.specs.Prelude.{◌≡◌, Some, None};
ghost use Rattle.trace_world.specs.Fitting.{FitsTable};

use bv_core::{Bv, NodeId, Sample};
use dap_link::{Adapter, Said};
use dbg_core::Session;
use std::alloc::Global;
use std::test::Fail;
use symtab::Table;
use symtab_json::read_table;
use text_core::NoMemory;
use trace_core::{Seek, Trace};
use trace_fits::fits;

/// A symbol file of two statements, in two files: the first in an instance, the second in two others, of which one is never a thread.
static SYMBOLS: &str =
    "{\"instances\":[[\"A\",0],[\"A.u\",1],[\"A.v\",1]],\"nodes\":[[\"en\",1]],\"slots\":[{\"file\":0,\"gens\":[],\"line\":10,\"na\
             mes\":[\"q\",\"t\",\"n\"],\"rows\":[{\"cells\":[\"unset\",\"8'h05\",\"removed\"],\"on\":0}],\"variant\":0},{\"file\":1,\"gens\
             \":[[\"W\",8],[\"k\",-3]],\"line\":4,\"names\":[\"x\"],\"rows\":[{\"cells\":[0],\"on\":0},{\"cells\":[\"1'h0\"],\"on\":\"1'h0\
             \"}],\"variant\":1}],\"top\":\"A\",\"variants\":[[\"A\",[]],[\"U\",[[\"W\",8]]]],\"version\":2}";

/// A message of an editor, and the messages that it is answered with.
struct Exchange {
    message: &'static str,
    lines: &'static [&'static str],
}

/// A conversation, in order, in four parts: the code of a function that names a large table is large.
static FIRST: [Exchange; 14] = [
    Exchange {
        message: "{\"seq\":1,\"command\":\"threads\"}",
        lines: &[
            "Content-Length: 100\r\n\r\n{\"body\":{\"threads\":[]},\"command\":\"threads\",\"request_seq\":1,\"seq\":1,\"success\":true,\"\
             type\":\"response\"}",
        ],
    },
    Exchange {
        message: "{\"seq\":2,\"command\":\"initialize\"}",
        lines: &[
            "Content-Length: 192\r\n\r\n{\"body\":{\"supportsConditionalBreakpoints\":true,\"supportsConfigurationDoneRequest\":true,\"sup\
             portsStepBack\":true},\"command\":\"initialize\",\"request_seq\":2,\"seq\":2,\"success\":true,\"type\":\"response\"}",
            "Content-Length: 46\r\n\r\n{\"event\":\"initialized\",\"seq\":3,\"type\":\"event\"}",
        ],
    },
    Exchange {
        message: "{\"seq\":3,\"command\":\"initialize\",\"arguments\":{\"linesStartAt1\":false}}",
        lines: &[
            "Content-Length: 103\r\n\r\n{\"command\":\"initialize\",\"message\":\"BadShape\",\"request_seq\":3,\"seq\":4,\"success\":false\
             ,\"type\":\"response\"}",
        ],
    },
    Exchange {
        message: "{\"seq\":4,\"command\":\"initialize\",\"arguments\":5}",
        lines: &[
            "Content-Length: 103\r\n\r\n{\"command\":\"initialize\",\"message\":\"BadShape\",\"request_seq\":4,\"seq\":5,\"success\":false\
             ,\"type\":\"response\"}",
        ],
    },
    Exchange {
        message: "{\"seq\":5,\"command\":\"launch\"}",
        lines: &[
            "Content-Length: 77\r\n\r\n{\"command\":\"launch\",\"request_seq\":5,\"seq\":6,\"success\":true,\"type\":\"response\"}",
        ],
    },
    Exchange {
        message: "{\"seq\":6,\"command\":\"attach\",\"arguments\":{\"program\":\"a.hg\"}}",
        lines: &[
            "Content-Length: 77\r\n\r\n{\"command\":\"attach\",\"request_seq\":6,\"seq\":7,\"success\":true,\"type\":\"response\"}",
        ],
    },
    Exchange {
        message: "{\"seq\":7,\"command\":\"setBreakpoints\",\"arguments\":{\"source\":{\"path\":\"/w/a.hg\"},\"breakpoints\":[{\"line\":10},{\"\
             line\":11},{\"line\":0}]}}",
        lines: &[
            "Content-Length: 240\r\n\r\n{\"body\":{\"breakpoints\":[{\"id\":1,\"line\":10,\"verified\":true},{\"line\":11,\"message\":\"No\
             Site\",\"verified\":false},{\"line\":0,\"message\":\"NoSite\",\"verified\":false}]},\"command\":\"setBreakpoints\",\"request_\
             seq\":7,\"seq\":8,\"success\":true,\"type\":\"response\"}",
        ],
    },
    Exchange {
        message: "{\"seq\":8,\"command\":\"setBreakpoints\",\"arguments\":{\"source\":{\"path\":\"x.hg\"},\"breakpoints\":[{\"line\":4,\"condit\
             ion\":\"x\"},{\"line\":4,\"condition\":\"y\"},{\"line\":4,\"condition\":\"\"}]}}",
        lines: &[
            "Content-Length: 240\r\n\r\n{\"body\":{\"breakpoints\":[{\"id\":2,\"line\":4,\"verified\":true},{\"line\":4,\"message\":\"BadC\
             ond\",\"verified\":false},{\"line\":4,\"message\":\"BadCond\",\"verified\":false}]},\"command\":\"setBreakpoints\",\"request_\
             seq\":8,\"seq\":9,\"success\":true,\"type\":\"response\"}",
        ],
    },
    Exchange {
        message: "{\"seq\":9,\"command\":\"setBreakpoints\",\"arguments\":{\"source\":{\"path\":\"/x.hg/y.hg\"},\"breakpoints\":[{\"line\":4}]}\
             }",
        lines: &[
            "Content-Length: 158\r\n\r\n{\"body\":{\"breakpoints\":[{\"line\":4,\"message\":\"NoFile\",\"verified\":false}]},\"command\":\"\
             setBreakpoints\",\"request_seq\":9,\"seq\":10,\"success\":true,\"type\":\"response\"}",
        ],
    },
    Exchange {
        message: "{\"seq\":10,\"command\":\"setBreakpoints\",\"arguments\":{\"source\":{\"path\":\"a.hg\"},\"breakpoints\":[{\"line\":12},{\"li\
             ne\":16777216}]}}",
        lines: &[
            "Content-Length: 109\r\n\r\n{\"command\":\"setBreakpoints\",\"message\":\"BadShape\",\"request_seq\":10,\"seq\":11,\"success\"\
             :false,\"type\":\"response\"}",
        ],
    },
    Exchange {
        message: "{\"seq\":11,\"command\":\"setBreakpoints\",\"arguments\":{\"source\":{\"path\":\"a.hg\"}}}",
        lines: &[
            "Content-Length: 109\r\n\r\n{\"command\":\"setBreakpoints\",\"message\":\"BadShape\",\"request_seq\":11,\"seq\":12,\"success\"\
             :false,\"type\":\"response\"}",
        ],
    },
    Exchange {
        message: "{\"seq\":12,\"command\":\"setBreakpoints\",\"arguments\":{\"breakpoints\":[]}}",
        lines: &[
            "Content-Length: 109\r\n\r\n{\"command\":\"setBreakpoints\",\"message\":\"BadShape\",\"request_seq\":12,\"seq\":13,\"success\"\
             :false,\"type\":\"response\"}",
        ],
    },
    Exchange {
        message: "{\"seq\":13,\"command\":\"setBreakpoints\",\"arguments\":{\"source\":{\"path\":\"a.hg\"},\"breakpoints\":[{\"line\":10,\"cond\
             ition\":7}]}}",
        lines: &[
            "Content-Length: 109\r\n\r\n{\"command\":\"setBreakpoints\",\"message\":\"BadShape\",\"request_seq\":13,\"seq\":14,\"success\"\
             :false,\"type\":\"response\"}",
        ],
    },
    Exchange {
        message: "{\"seq\":14,\"command\":\"stackTrace\",\"arguments\":{\"threadId\":1}}",
        lines: &[
            "Content-Length: 103\r\n\r\n{\"command\":\"stackTrace\",\"message\":\"NoStop\",\"request_seq\":14,\"seq\":15,\"success\":false\
             ,\"type\":\"response\"}",
        ],
    },
];

static SECOND: [Exchange; 14] = [
    Exchange {
        message: "{\"seq\":15,\"command\":\"configurationDone\"}",
        lines: &[
            "Content-Length: 90\r\n\r\n{\"command\":\"configurationDone\",\"request_seq\":15,\"seq\":16,\"success\":true,\"type\":\"respon\
             se\"}",
            "Content-Length: 112\r\n\r\n{\"body\":{\"allThreadsStopped\":true,\"reason\":\"breakpoint\",\"threadId\":1},\"event\":\"stoppe\
             d\",\"seq\":17,\"type\":\"event\"}",
        ],
    },
    Exchange {
        message: "{\"seq\":16,\"command\":\"threads\"}",
        lines: &[
            "Content-Length: 121\r\n\r\n{\"body\":{\"threads\":[{\"id\":1,\"name\":\"A\"}]},\"command\":\"threads\",\"request_seq\":16,\"s\
             eq\":18,\"success\":true,\"type\":\"response\"}",
        ],
    },
    Exchange {
        message: "{\"seq\":17,\"command\":\"stackTrace\",\"arguments\":{\"threadId\":1}}",
        lines: &[
            "Content-Length: 190\r\n\r\n{\"body\":{\"stackFrames\":[{\"column\":1,\"id\":1,\"line\":10,\"name\":\"A\",\"source\":{\"name\"\
             :\"a.hg\"}}],\"totalFrames\":1},\"command\":\"stackTrace\",\"request_seq\":17,\"seq\":19,\"success\":true,\"type\":\"response\
             \"}",
        ],
    },
    Exchange {
        message: "{\"seq\":18,\"command\":\"stackTrace\",\"arguments\":{\"threadId\":2}}",
        lines: &[
            "Content-Length: 103\r\n\r\n{\"command\":\"stackTrace\",\"message\":\"NoStop\",\"request_seq\":18,\"seq\":20,\"success\":false\
             ,\"type\":\"response\"}",
        ],
    },
    Exchange {
        message: "{\"seq\":19,\"command\":\"stackTrace\",\"arguments\":{\"threadId\":0}}",
        lines: &[
            "Content-Length: 103\r\n\r\n{\"command\":\"stackTrace\",\"message\":\"NoStop\",\"request_seq\":19,\"seq\":21,\"success\":false\
             ,\"type\":\"response\"}",
        ],
    },
    Exchange {
        message: "{\"seq\":20,\"command\":\"stackTrace\",\"arguments\":{\"threadId\":-1}}",
        lines: &[
            "Content-Length: 105\r\n\r\n{\"command\":\"stackTrace\",\"message\":\"BadShape\",\"request_seq\":20,\"seq\":22,\"success\":fal\
             se,\"type\":\"response\"}",
        ],
    },
    Exchange {
        message: "{\"seq\":21,\"command\":\"scopes\",\"arguments\":{\"frameId\":3}}",
        lines: &[
            "Content-Length: 224\r\n\r\n{\"body\":{\"scopes\":[{\"expensive\":false,\"name\":\"Signals\",\"variablesReference\":3},{\"expe\
             nsive\":false,\"name\":\"Generator\",\"variablesReference\":8195}]},\"command\":\"scopes\",\"request_seq\":21,\"seq\":23,\"su\
             ccess\":true,\"type\":\"response\"}",
        ],
    },
    Exchange {
        message: "{\"seq\":22,\"command\":\"scopes\",\"arguments\":{\"frameId\":4}}",
        lines: &[
            "Content-Length: 99\r\n\r\n{\"command\":\"scopes\",\"message\":\"NoStop\",\"request_seq\":22,\"seq\":24,\"success\":false,\"ty\
             pe\":\"response\"}",
        ],
    },
    Exchange {
        message: "{\"seq\":23,\"command\":\"scopes\",\"arguments\":{\"frameId\":0}}",
        lines: &[
            "Content-Length: 99\r\n\r\n{\"command\":\"scopes\",\"message\":\"NoStop\",\"request_seq\":23,\"seq\":25,\"success\":false,\"ty\
             pe\":\"response\"}",
        ],
    },
    Exchange {
        message: "{\"seq\":24,\"command\":\"scopes\",\"arguments\":{}}",
        lines: &[
            "Content-Length: 101\r\n\r\n{\"command\":\"scopes\",\"message\":\"BadShape\",\"request_seq\":24,\"seq\":26,\"success\":false,\"\
             type\":\"response\"}",
        ],
    },
    Exchange {
        message: "{\"seq\":25,\"command\":\"variables\",\"arguments\":{\"variablesReference\":1}}",
        lines: &[
            "Content-Length: 263\r\n\r\n{\"body\":{\"variables\":[{\"name\":\"q\",\"value\":\"unset\",\"variablesReference\":0},{\"name\":\
             \"t\",\"value\":\"8'h05\",\"variablesReference\":0},{\"name\":\"n\",\"value\":\"removed\",\"variablesReference\":0}]},\"comma\
             nd\":\"variables\",\"request_seq\":25,\"seq\":27,\"success\":true,\"type\":\"response\"}",
        ],
    },
    Exchange {
        message: "{\"seq\":26,\"command\":\"variables\",\"arguments\":{\"variablesReference\":2}}",
        lines: &[
            "Content-Length: 102\r\n\r\n{\"command\":\"variables\",\"message\":\"NoStop\",\"request_seq\":26,\"seq\":28,\"success\":false,\
             \"type\":\"response\"}",
        ],
    },
    Exchange {
        message: "{\"seq\":27,\"command\":\"variables\",\"arguments\":{\"variablesReference\":0}}",
        lines: &[
            "Content-Length: 102\r\n\r\n{\"command\":\"variables\",\"message\":\"NoStop\",\"request_seq\":27,\"seq\":29,\"success\":false,\
             \"type\":\"response\"}",
        ],
    },
    Exchange {
        message: "{\"seq\":28,\"command\":\"variables\",\"arguments\":{\"variablesReference\":8192}}",
        lines: &[
            "Content-Length: 102\r\n\r\n{\"command\":\"variables\",\"message\":\"NoStop\",\"request_seq\":28,\"seq\":30,\"success\":false,\
             \"type\":\"response\"}",
        ],
    },
];

static THIRD: [Exchange; 14] = [
    Exchange {
        message: "{\"seq\":29,\"command\":\"variables\",\"arguments\":{\"variablesReference\":8193}}",
        lines: &[
            "Content-Length: 106\r\n\r\n{\"body\":{\"variables\":[]},\"command\":\"variables\",\"request_seq\":29,\"seq\":31,\"success\":t\
             rue,\"type\":\"response\"}",
        ],
    },
    Exchange {
        message: "{\"seq\":30,\"command\":\"variables\",\"arguments\":{\"variablesReference\":8194}}",
        lines: &[
            "Content-Length: 102\r\n\r\n{\"command\":\"variables\",\"message\":\"NoStop\",\"request_seq\":30,\"seq\":32,\"success\":false,\
             \"type\":\"response\"}",
        ],
    },
    Exchange {
        message: "{\"seq\":31,\"command\":\"variables\",\"arguments\":{\"variablesReference\":null}}",
        lines: &[
            "Content-Length: 104\r\n\r\n{\"command\":\"variables\",\"message\":\"BadShape\",\"request_seq\":31,\"seq\":33,\"success\":fals\
             e,\"type\":\"response\"}",
        ],
    },
    Exchange {
        message: "{\"seq\":32,\"command\":\"evaluate\",\"arguments\":{\"expression\":\"(t + 8'h01)\",\"frameId\":1}}",
        lines: &[
            "Content-Length: 130\r\n\r\n{\"body\":{\"result\":\"8'h06\",\"variablesReference\":0},\"command\":\"evaluate\",\"request_seq\"\
             :32,\"seq\":34,\"success\":true,\"type\":\"response\"}",
        ],
    },
    Exchange {
        message: "{\"seq\":33,\"command\":\"evaluate\",\"arguments\":{\"expression\":\"q\",\"frameId\":1}}",
        lines: &[
            "Content-Length: 104\r\n\r\n{\"command\":\"evaluate\",\"message\":\"CondUnset\",\"request_seq\":33,\"seq\":35,\"success\":fals\
             e,\"type\":\"response\"}",
        ],
    },
    Exchange {
        message: "{\"seq\":34,\"command\":\"evaluate\",\"arguments\":{\"expression\":\"n\",\"frameId\":1}}",
        lines: &[
            "Content-Length: 106\r\n\r\n{\"command\":\"evaluate\",\"message\":\"CondRemoved\",\"request_seq\":34,\"seq\":36,\"success\":fa\
             lse,\"type\":\"response\"}",
        ],
    },
    Exchange {
        message: "{\"seq\":35,\"command\":\"evaluate\",\"arguments\":{\"expression\":\"t\",\"frameId\":2}}",
        lines: &[
            "Content-Length: 101\r\n\r\n{\"command\":\"evaluate\",\"message\":\"NoStop\",\"request_seq\":35,\"seq\":37,\"success\":false,\"\
             type\":\"response\"}",
        ],
    },
    Exchange {
        message: "{\"seq\":36,\"command\":\"evaluate\",\"arguments\":{\"expression\":\"t\",\"frameId\":9}}",
        lines: &[
            "Content-Length: 101\r\n\r\n{\"command\":\"evaluate\",\"message\":\"NoStop\",\"request_seq\":36,\"seq\":38,\"success\":false,\"\
             type\":\"response\"}",
        ],
    },
    Exchange {
        message: "{\"seq\":37,\"command\":\"evaluate\",\"arguments\":{\"expression\":\"t\"}}",
        lines: &[
            "Content-Length: 103\r\n\r\n{\"command\":\"evaluate\",\"message\":\"BadShape\",\"request_seq\":37,\"seq\":39,\"success\":false\
             ,\"type\":\"response\"}",
        ],
    },
    Exchange {
        message: "{\"seq\":38,\"command\":\"continue\"}",
        lines: &[
            "Content-Length: 117\r\n\r\n{\"body\":{\"allThreadsContinued\":true},\"command\":\"continue\",\"request_seq\":38,\"seq\":40,\"\
             success\":true,\"type\":\"response\"}",
            "Content-Length: 112\r\n\r\n{\"body\":{\"allThreadsStopped\":true,\"reason\":\"breakpoint\",\"threadId\":2},\"event\":\"stoppe\
             d\",\"seq\":41,\"type\":\"event\"}",
        ],
    },
    Exchange {
        message: "{\"seq\":39,\"command\":\"stackTrace\",\"arguments\":{\"threadId\":2}}",
        lines: &[
            "Content-Length: 191\r\n\r\n{\"body\":{\"stackFrames\":[{\"column\":1,\"id\":2,\"line\":4,\"name\":\"A.u\",\"source\":{\"name\"\
             :\"x.hg\"}}],\"totalFrames\":1},\"command\":\"stackTrace\",\"request_seq\":39,\"seq\":42,\"success\":true,\"type\":\"response\
             \"}",
        ],
    },
    Exchange {
        message: "{\"seq\":40,\"command\":\"variables\",\"arguments\":{\"variablesReference\":2}}",
        lines: &[
            "Content-Length: 156\r\n\r\n{\"body\":{\"variables\":[{\"name\":\"x\",\"value\":\"1'h1\",\"variablesReference\":0}]},\"command\
             \":\"variables\",\"request_seq\":40,\"seq\":43,\"success\":true,\"type\":\"response\"}",
        ],
    },
    Exchange {
        message: "{\"seq\":41,\"command\":\"variables\",\"arguments\":{\"variablesReference\":3}}",
        lines: &[
            "Content-Length: 102\r\n\r\n{\"command\":\"variables\",\"message\":\"NoStop\",\"request_seq\":41,\"seq\":44,\"success\":false,\
             \"type\":\"response\"}",
        ],
    },
    Exchange {
        message: "{\"seq\":42,\"command\":\"variables\",\"arguments\":{\"variablesReference\":8194}}",
        lines: &[
            "Content-Length: 202\r\n\r\n{\"body\":{\"variables\":[{\"name\":\"W\",\"value\":\"8\",\"variablesReference\":0},{\"name\":\"k\"\
             ,\"value\":\"-3\",\"variablesReference\":0}]},\"command\":\"variables\",\"request_seq\":42,\"seq\":45,\"success\":true,\"type\
             \":\"response\"}",
        ],
    },
];

static LAST: [Exchange; 14] = [
    Exchange {
        message: "{\"seq\":43,\"command\":\"next\"}",
        lines: &[
            "Content-Length: 77\r\n\r\n{\"command\":\"next\",\"request_seq\":43,\"seq\":46,\"success\":true,\"type\":\"response\"}",
            "Content-Length: 106\r\n\r\n{\"body\":{\"allThreadsStopped\":true,\"reason\":\"step\",\"threadId\":1},\"event\":\"stopped\",\"\
             seq\":47,\"type\":\"event\"}",
        ],
    },
    Exchange {
        message: "{\"seq\":44,\"command\":\"stepBack\"}",
        lines: &[
            "Content-Length: 81\r\n\r\n{\"command\":\"stepBack\",\"request_seq\":44,\"seq\":48,\"success\":true,\"type\":\"response\"}",
            "Content-Length: 106\r\n\r\n{\"body\":{\"allThreadsStopped\":true,\"reason\":\"step\",\"threadId\":2},\"event\":\"stopped\",\"\
             seq\":49,\"type\":\"event\"}",
        ],
    },
    Exchange {
        message: "{\"seq\":45,\"command\":\"reverseContinue\"}",
        lines: &[
            "Content-Length: 88\r\n\r\n{\"command\":\"reverseContinue\",\"request_seq\":45,\"seq\":50,\"success\":true,\"type\":\"response\
             \"}",
            "Content-Length: 112\r\n\r\n{\"body\":{\"allThreadsStopped\":true,\"reason\":\"breakpoint\",\"threadId\":1},\"event\":\"stoppe\
             d\",\"seq\":51,\"type\":\"event\"}",
        ],
    },
    Exchange {
        message: "{\"seq\":46,\"command\":\"setBreakpoints\",\"arguments\":{\"source\":{\"path\":\"a.hg\"},\"breakpoints\":[]}}",
        lines: &[
            "Content-Length: 113\r\n\r\n{\"body\":{\"breakpoints\":[]},\"command\":\"setBreakpoints\",\"request_seq\":46,\"seq\":52,\"succ\
             ess\":true,\"type\":\"response\"}",
        ],
    },
    Exchange {
        message: "{\"seq\":47,\"command\":\"reverseContinue\"}",
        lines: &[
            "Content-Length: 88\r\n\r\n{\"command\":\"reverseContinue\",\"request_seq\":47,\"seq\":53,\"success\":true,\"type\":\"response\
             \"}",
            "Content-Length: 123\r\n\r\n{\"body\":{\"allThreadsStopped\":true,\"description\":\"start of run\",\"reason\":\"pause\"},\"eve\
             nt\":\"stopped\",\"seq\":54,\"type\":\"event\"}",
        ],
    },
    Exchange {
        message: "{\"seq\":48,\"command\":\"stepBack\"}",
        lines: &[
            "Content-Length: 81\r\n\r\n{\"command\":\"stepBack\",\"request_seq\":48,\"seq\":55,\"success\":true,\"type\":\"response\"}",
            "Content-Length: 123\r\n\r\n{\"body\":{\"allThreadsStopped\":true,\"description\":\"start of run\",\"reason\":\"pause\"},\"eve\
             nt\":\"stopped\",\"seq\":56,\"type\":\"event\"}",
        ],
    },
    Exchange {
        message: "{\"seq\":49,\"command\":\"continue\"}",
        lines: &[
            "Content-Length: 117\r\n\r\n{\"body\":{\"allThreadsContinued\":true},\"command\":\"continue\",\"request_seq\":49,\"seq\":57,\"\
             success\":true,\"type\":\"response\"}",
            "Content-Length: 112\r\n\r\n{\"body\":{\"allThreadsStopped\":true,\"reason\":\"breakpoint\",\"threadId\":2},\"event\":\"stoppe\
             d\",\"seq\":58,\"type\":\"event\"}",
        ],
    },
    Exchange {
        message: "{\"seq\":50,\"command\":\"setBreakpoints\",\"arguments\":{\"source\":{\"path\":\"x.hg\"},\"breakpoints\":[{\"line\":4,\"condi\
             tion\":null}]}}",
        lines: &[
            "Content-Length: 146\r\n\r\n{\"body\":{\"breakpoints\":[{\"id\":3,\"line\":4,\"verified\":true}]},\"command\":\"setBreakpoints\
             \",\"request_seq\":50,\"seq\":59,\"success\":true,\"type\":\"response\"}",
        ],
    },
    Exchange {
        message: "{\"seq\":51,\"command\":\"pause\"}",
        lines: &[
            "Content-Length: 102\r\n\r\n{\"command\":\"pause\",\"message\":\"NotRunning\",\"request_seq\":51,\"seq\":60,\"success\":false,\
             \"type\":\"response\"}",
        ],
    },
    Exchange {
        message: "{\"seq\":52,\"command\":\"stepIn\"}",
        lines: &[
            "Content-Length: 79\r\n\r\n{\"command\":\"stepIn\",\"request_seq\":52,\"seq\":61,\"success\":true,\"type\":\"response\"}",
            "Content-Length: 106\r\n\r\n{\"body\":{\"allThreadsStopped\":true,\"reason\":\"step\",\"threadId\":1},\"event\":\"stopped\",\"\
             seq\":62,\"type\":\"event\"}",
        ],
    },
    Exchange {
        message: "{\"seq\":53,\"command\":\"stepOut\"}",
        lines: &[
            "Content-Length: 80\r\n\r\n{\"command\":\"stepOut\",\"request_seq\":53,\"seq\":63,\"success\":true,\"type\":\"response\"}",
            "Content-Length: 106\r\n\r\n{\"body\":{\"allThreadsStopped\":true,\"reason\":\"step\",\"threadId\":2},\"event\":\"stopped\",\"\
             seq\":64,\"type\":\"event\"}",
        ],
    },
    Exchange {
        message: "{\"seq\":54,\"command\":\"continue\"}",
        lines: &[
            "Content-Length: 117\r\n\r\n{\"body\":{\"allThreadsContinued\":true},\"command\":\"continue\",\"request_seq\":54,\"seq\":65,\"\
             success\":true,\"type\":\"response\"}",
            "Content-Length: 121\r\n\r\n{\"body\":{\"allThreadsStopped\":true,\"description\":\"end of run\",\"reason\":\"pause\"},\"event\
             \":\"stopped\",\"seq\":66,\"type\":\"event\"}",
        ],
    },
    Exchange {
        message: "{\"seq\":55,\"command\":\"status\"}",
        lines: &[
            "Content-Length: 103\r\n\r\n{\"command\":\"status\",\"message\":\"UnknownCmd\",\"request_seq\":55,\"seq\":67,\"success\":false\
             ,\"type\":\"response\"}",
        ],
    },
    Exchange {
        message: "{\"seq\":56,\"command\":\"disconnect\"}",
        lines: &[
            "Content-Length: 83\r\n\r\n{\"command\":\"disconnect\",\"request_seq\":56,\"seq\":68,\"success\":true,\"type\":\"response\"}",
        ],
    },
];

/// What an editor says first.
static OPENING: [Exchange; 4] = [
    Exchange {
        message: "{\"seq\":1,\"type\":\"request\",\"command\":\"initialize\"}",
        lines: &[
            "Content-Length: 192\r\n\r\n{\"body\":{\"supportsConditionalBreakpoints\":true,\"supportsConfigurationDoneRequest\":true,\"supportsStepBack\":true},\"command\":\"initialize\",\"request_seq\":1,\"seq\":1,\"success\":true,\"type\":\"response\"}",
            "Content-Length: 46\r\n\r\n{\"event\":\"initialized\",\"seq\":2,\"type\":\"event\"}",
        ],
    },
    Exchange {
        message: "{\"seq\":2,\"type\":\"request\",\"command\":\"launch\"}",
        lines: &[
            "Content-Length: 77\r\n\r\n{\"command\":\"launch\",\"request_seq\":2,\"seq\":3,\"success\":true,\"type\":\"response\"}",
        ],
    },
    Exchange {
        message: "{\"seq\":3,\"type\":\"request\",\"command\":\"setBreakpoints\",\"arguments\":{\"source\":{\"path\":\"/w/a.hg\"},\"breakpoints\":[{\"line\":10}]}}",
        lines: &[
            "Content-Length: 145\r\n\r\n{\"body\":{\"breakpoints\":[{\"id\":1,\"line\":10,\"verified\":true}]},\"command\":\"setBreakpoints\",\"request_seq\":3,\"seq\":4,\"success\":true,\"type\":\"response\"}",
        ],
    },
    Exchange {
        message: "{\"seq\":4,\"type\":\"request\",\"command\":\"configurationDone\"}",
        lines: &[
            "Content-Length: 88\r\n\r\n{\"command\":\"configurationDone\",\"request_seq\":4,\"seq\":5,\"success\":true,\"type\":\"response\"}",
            "Content-Length: 111\r\n\r\n{\"body\":{\"allThreadsStopped\":true,\"reason\":\"breakpoint\",\"threadId\":1},\"event\":\"stopped\",\"seq\":6,\"type\":\"event\"}",
        ],
    },
];

/// A trace of two cycles.
#[derive(Drop)]
struct Steady {
    at: Option<u64>,
    sample: Sample,
}

impl Trace for Steady {
    ghost use Rattle.dap_tests.specs.Constant.{constant};

    ghost samples = { λ s. constant 2 s.sample };

    ghost cursor = { λ s. s.at };

    fn cycles(&self) -> u64 {
        2
    }

    fn nodes(&self) -> u64 {
        1
    }

    fn seek(&mut self, t: u64) -> Seek {
        if t < 2 {
            self.at = Some(t);
            return Seek::At;
        }
        Seek::OutOfRange
    }

    fn value(&self, _n: NodeId) -> Sample {
        self.sample
    }
}

fn trace() -> Steady {
    let sample = match Bv::make(1, 1) {
        Some(value) => Sample::Known(value),
        None => Sample::Unknown,
    };
    Steady { at: None, sample }
}

/// An adapter over a table, with the names of two files.
fn adapter<T: Trace + Drop>(alloc: Global, table: Table, trace: T) -> Result<Adapter<T>, NoMemory>
    requires { FitsTable table (T.samples trace) }
{
    let mut names = Vec::new(alloc);
    names.push(String::from_str(alloc, "a.hg")?)?;
    names.push(String::from_str(alloc, "x.hg")?)?;
    Adapter::new(alloc, Session::new(alloc, table, trace), names)
}

/// Whether these messages were written.
fn are(lines: &[Vec<u8>], want: &[&str]) -> bool {
    lines.len() == want.len()
        && lines
            .iter()
            .zip(want)
            .all(|(line, text)| line.as_slice() == text.as_bytes())
}

/// Whether an exchange went as it is written, and ends the conversation or does not.
fn went_so(said: &Said, exchange: &Exchange, ends: bool) -> bool {
    are(&said.lines, exchange.lines) && said.ended == ends
}

/// The number of the first exchange that did not go as it is written, if there is one or memory runs out. The last may end the conversation.
fn first_wrong<T: Trace>(
    adapter: &mut Adapter<T>,
    exchanges: &[Exchange],
    ends: bool,
) -> Option<usize> {
    for (number, exchange) in exchanges.iter().enumerate() {
        match adapter.message(exchange.message.as_bytes()) {
            Ok(said) => {
                if !went_so(&said, exchange, ends && number + 1 == exchanges.len()) {
                    return Some(number);
                }
            }
            Err(NoMemory) => return Some(number),
        }
    }
    None
}

/// Whether the first part of a conversation goes as it is written.
fn first_goes_so<T: Trace>(adapter: &mut Adapter<T>) -> bool {
    first_wrong(adapter, &FIRST, false).is_none()
}

fn second_goes_so<T: Trace>(adapter: &mut Adapter<T>) -> bool {
    first_wrong(adapter, &SECOND, false).is_none()
}

fn third_goes_so<T: Trace>(adapter: &mut Adapter<T>) -> bool {
    first_wrong(adapter, &THIRD, false).is_none()
}

/// Whether the last part does, and ends it.
fn last_goes_so<T: Trace>(adapter: &mut Adapter<T>) -> bool {
    first_wrong(adapter, &LAST, true).is_none()
}

/// Whether a conversation goes as it is written from its beginning to its end.
fn goes_so<T: Trace>(adapter: &mut Adapter<T>) -> bool {
    first_goes_so(adapter)
        && second_goes_so(adapter)
        && third_goes_so(adapter)
        && last_goes_so(adapter)
}

/// Whether an editor begins as it is written.
fn opens_so<T: Trace>(adapter: &mut Adapter<T>) -> bool {
    first_wrong(adapter, &OPENING, false).is_none()
}

/// Whether an editor begins, or a whole conversation goes, as it is written.
fn converses(alloc: Global, opens: bool) -> bool {
    let Ok(table) = read_table(alloc, SYMBOLS.as_bytes()) else {
        return false;
    };
    let mut trace = trace();
    if !fits(&table, &mut trace) {
        return false;
    }
    match adapter(alloc, table, trace) {
        Ok(mut adapter) => {
            if opens {
                opens_so(&mut adapter)
            } else {
                goes_so(&mut adapter)
            }
        }
        Err(NoMemory) => false,
    }
}

#[test]
fn each_command_is_answered(rt: HostRuntime) -> Result<(), Fail> {
    assert!(rt; converses(rt.alloc(), true));
    assert!(rt; converses(rt.alloc(), false));
    Ok(())
}
