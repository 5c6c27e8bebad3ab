//! The words of a replay.

ghost use Rattle.std.specs.Prelude.{◌≡◌, ◌&&◌};
ghost use Rattle.std.specs.Option.{option_map};
ghost use Rattle.replay_run.specs.Judged.{names_as};
ghost use Rattle.dbg_app.specs.Call.{is_some_word, replay_of};

use io_edge::Words;
use replay_run::Replay;

/// Whether none of its names is empty.
fn are_some(replay: &Replay<'_>) -> bool
    ensures { result ≡ ((is_some_word replay.now.symbols.now && is_some_word replay.now.dump.now) &&
        (is_some_word replay.now.scope.now && is_some_word replay.now.requests.now)) }
{
    !replay.symbols.is_empty()
        && !replay.dump.is_empty()
        && !replay.scope.is_empty()
        && !replay.requests.is_empty()
}

/// The replay `replay SYM VCD SCOPE REQ` that the words are, if they are one.
pub(crate) fn read_replay<'a>(words: &'a Words) -> Option<Replay<'a>>
    ensures { option_map names_as result ≡ replay_of words.now }
{
    if words.count() != 5 || words.word(0) != "replay" {
        return None;
    }
    let replay = Replay {
        symbols: words.word(1),
        dump: words.word(2),
        scope: words.word(3),
        requests: words.word(4),
    };
    if are_some(&replay) {
        Some(replay)
    } else {
        None
    }
}
