//! The words of a demo.

ghost use Rattle.std.specs.Prelude.{◌≡◌};
ghost use Rattle.std.specs.Option.{option_map};
ghost use Rattle.demo_run.specs.Judged.{given_as};
ghost use Rattle.dbg_app.specs.Call.{demo_of};

use crate::command::mode_of;
use crate::number::number_to;
use demo_run::Demo;
use io_edge::Words;

/// The demo `demo MODE N REQ` that the words are, if they are one.
pub(crate) fn read_demo<'a>(words: &'a Words) -> Option<Demo<'a>>
    ensures { option_map given_as result ≡ demo_of words.now }
{
    if words.count() != 4 || words.word(0) != "demo" {
        return None;
    }
    let mode = mode_of(words.word(1))?;
    let number = number_to(4000, words.word(2).as_bytes())?;
    let requests = words.word(3);
    if requests.is_empty() {
        return None;
    }
    Some(Demo {
        mode,
        number,
        requests,
    })
}
