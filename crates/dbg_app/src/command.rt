//! The commands, by their words.

ghost use Rattle.std.specs.Prelude.{◌≡◌, ◌<◌, ◌≤◌, ◌&&◌, IfSome, length, drop};
ghost use Rattle.std.specs.Option.{option_map};
ghost use Rattle.std.specs.List.{list_all};
ghost use Rattle.dbg_app.specs.Command.{command_of, command_with as the_command_with, form_of as the_form_of, has_file, is_argument, mode_of, by_requests as the_by_requests, of_design as the_of_design, over_rows as the_over_rows};
ghost use Rattle.dbg_app.specs.Asked.{alone_as, command_as, form_as, over_as, requests_as, stimulus_as, task_as};

use crate::arguments::argument_of;
use gen_token::is_name;
use io_edge::Words;
use world_core::Mode;

/// What is asked of a design alone.
#[derive(Clone, Copy)]
pub(crate) enum OfDesign {
    /// Its Verilog.
    Verilog,
    /// Its symbol file.
    Symbols,
}

/// What is asked of a design over the rows of a stimulus.
#[derive(Clone, Copy)]
pub(crate) enum OverRows {
    /// The trail of its run.
    Trail,
    /// The waves of its run.
    Waves,
}

/// What a first word asks: of a design alone; over the rows of a stimulus, which is then named; or of a session over the rows by
/// requests, both of which are then named.
#[derive(Clone, Copy)]
enum Form {
    Alone(OfDesign),
    Over(OverRows),
    ByRequests,
}

/// What is asked, and the files of the stimulus and of the requests where they are named.
#[derive(Clone, Copy)]
pub(crate) enum Task<'a> {
    Alone(OfDesign),
    Over(OverRows, &'a str),
    Session(&'a str, &'a str),
}

/// What a command asks: in which mode, of which source file and top module; and its words, of which those from the place `first`
/// on are the arguments of the top.
#[derive(Clone, Copy)]
pub(crate) struct Command<'a> {
    pub(crate) task: Task<'a>,
    pub(crate) mode: Mode,
    pub(crate) source: &'a str,
    pub(crate) top: &'a str,
    pub(crate) words: &'a Words,
    pub(crate) first: usize,
}

/// Whether all words from this place on are arguments of the top.
fn are_arguments(words: &Words, first: usize) -> bool
    ensures { result ≡ list_all is_argument (drop first words.now) }
{
    for i in first..words.count() {
        if argument_of(words.word(i)).is_none() {
            return false;
        }
    }
    true
}

/// Whether the names of the stimulus and of the requests, where there are some, may stand in a command.
fn has_files(task: Task<'_>) -> bool
    ensures { result ≡ (has_file (stimulus_as task.entry) && has_file (requests_as task.entry)) }
{
    match task {
        Task::Alone(_) => true,
        Task::Over(_, stimulus) => !stimulus.is_empty(),
        Task::Session(stimulus, requests) => !stimulus.is_empty() && !requests.is_empty(),
    }
}

/// The command of these words, if its files, its top module and the arguments of it may stand in one.
pub(crate) fn command_with<'a>(
    task: Task<'a>,
    mode: Mode,
    source: &'a str,
    top: &'a str,
    words: &'a Words,
    first: usize,
) -> Option<Command<'a>>
    requires { first ≤ length words.now }
    ensures task { IfSome result (λ command. command.task ≡ task.entry) }
    ensures command { option_map command_as result ≡ the_command_with (task_as task.entry) source.now (stimulus_as task.entry)
        (requests_as task.entry) top.now (drop first words.now) mode }
{
    if source.is_empty() || !has_files(task) || !is_name(top.as_bytes()) {
        return None;
    }
    if words.count() - first > 64 || !are_arguments(words, first) {
        return None;
    }
    Some(Command {
        task,
        mode,
        source,
        top,
        words,
        first,
    })
}

/// Which names are kept, by its word.
pub(crate) fn mode_of(word: &str) -> Option<Mode>
    ensures { result ≡ mode_of word.now }
{
    match word {
        "opt" => Some(Mode::Opt),
        "keep" => Some(Mode::Keep),
        _ => None,
    }
}

/// The command `.. MODE SRC STIM TOP [NAME=N]..` that the words are, whatever the first is.
fn over_rows<'a>(task: OverRows, words: &'a Words) -> Option<Command<'a>>
    ensures { option_map command_as result ≡ the_over_rows (over_as task) words.now }
{
    if words.count() < 5 {
        return None;
    }
    let mode = mode_of(words.word(1))?;
    let task = Task::Over(task, words.word(3));
    command_with(task, mode, words.word(2), words.word(4), words, 5)
}

/// The command `.. MODE SRC TOP [NAME=N]..` that the words are, whatever the first is.
fn of_design<'a>(task: OfDesign, words: &'a Words) -> Option<Command<'a>>
    ensures { option_map command_as result ≡ the_of_design (alone_as task) words.now }
{
    if words.count() < 4 {
        return None;
    }
    let mode = mode_of(words.word(1))?;
    let task = Task::Alone(task);
    command_with(task, mode, words.word(2), words.word(3), words, 4)
}

/// The command `.. MODE SRC STIM REQ TOP [NAME=N]..` that the words are, whatever the first is.
fn by_requests<'a>(words: &'a Words) -> Option<Command<'a>>
    ensures { option_map command_as result ≡ the_by_requests words.now }
{
    if words.count() < 6 {
        return None;
    }
    let mode = mode_of(words.word(1))?;
    let task = Task::Session(words.word(3), words.word(4));
    command_with(task, mode, words.word(2), words.word(5), words, 6)
}

/// What a first word asks, if a command has it.
fn form_of(word: &str) -> Option<Form>
    ensures { option_map form_as result ≡ the_form_of word.now }
{
    match word {
        "trail" => Some(Form::Over(OverRows::Trail)),
        "compile" => Some(Form::Alone(OfDesign::Verilog)),
        "symbols" => Some(Form::Alone(OfDesign::Symbols)),
        "sim" => Some(Form::Over(OverRows::Waves)),
        "debug" => Some(Form::ByRequests),
        _ => None,
    }
}

/// The command that the words are, if they are one.
pub(crate) fn read_command<'a>(words: &'a Words) -> Option<Command<'a>>
    ensures { option_map command_as result ≡ command_of words.now }
{
    if words.count() == 0 {
        return None;
    }
    match form_of(words.word(0))? {
        Form::Over(task) => over_rows(task, words),
        Form::Alone(task) => of_design(task, words),
        Form::ByRequests => by_requests(words),
    }
}
