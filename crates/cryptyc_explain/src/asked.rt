// What the words of the command line ask for.
use clap::error::ErrorKind;
use clap::{Arg, ArgAction, ArgMatches, Command};
use std::alloc::{AllocError, Global};

/// When colours are written.
#[derive(Clone, Copy, PartialEq, Eq)]
pub enum Color {
    /// On a terminal.
    Auto,
    Always,
    Never,
}

/// An explanation of a file that is named, or of standard input.
#[derive(Clone, Copy)]
pub struct Explain<'a> {
    /// One finding a line.
    pub lines: bool,
    pub color: Color,
    pub file: Option<&'a str>,
}

/// A trace of a file that is named, or of standard input.
#[derive(Clone, Copy)]
pub struct Trace<'a> {
    /// A sequence chart in place of the text.
    pub chart: bool,
    pub file: Option<&'a str>,
}

/// What is asked for.
#[derive(Clone, Copy)]
pub enum Asked<'a> {
    /// Nothing that there is.
    Usage,
    Help,
    Version,
    Explain(Explain<'a>),
    Trace(Trace<'a>),
}

/// The words that `--color` takes.
const COLORS: [&str; 3] = ["auto", "always", "never"];

fn flag<'a>(alloc: Global, name: &'a str) -> Arg<'a> {
    Arg::new(alloc, name).long(name).action(ArgAction::SetTrue)
}

// `[--help] [--version] [FILE]`
fn form<'a>(alloc: Global) -> Result<Command<'a>, AllocError> {
    let file = Arg::new(alloc, "file").action(ArgAction::Set);
    Command::new(alloc, "cryptyc_explain")
        .no_binary_name(true)
        .disable_help_flag(true)
        .disable_version_flag(true)
        .arg(flag(alloc, "help"))?
        .arg(flag(alloc, "version"))?
        .arg(file)
}

// `[--lines] [--color WHEN] [--help] [--version] [FILE]`
fn explain_form<'a>(alloc: Global) -> Result<Command<'a>, AllocError> {
    let color = Arg::new(alloc, "color")
        .long("color")
        .value_parser(COLORS.as_slice())
        .action(ArgAction::Set);
    form(alloc)?.arg(flag(alloc, "lines"))?.arg(color)
}

// `[--chart] [--help] [--version] [FILE]`
fn trace_form<'a>(alloc: Global) -> Result<Command<'a>, AllocError> {
    form(alloc)?.arg(flag(alloc, "chart"))
}

fn color_of(word: Option<&str>) -> Color {
    match word {
        Some("always") => Color::Always,
        Some("never") => Color::Never,
        _ => Color::Auto,
    }
}

/// The commands.
#[derive(Clone, Copy)]
enum Verb {
    Explain,
    Trace,
}

fn form_of<'a>(alloc: Global, verb: Verb) -> Result<Command<'a>, AllocError> {
    match verb {
        Verb::Explain => explain_form(alloc),
        Verb::Trace => trace_form(alloc),
    }
}

// What is asked for by words that have the command's form.
fn asked_in<'a>(verb: Verb, matches: &ArgMatches<'a>) -> Asked<'a> {
    if matches.get_flag("help") {
        return Asked::Help;
    }
    if matches.get_flag("version") {
        return Asked::Version;
    }
    let file = matches.get_str("file");
    match verb {
        Verb::Explain => Asked::Explain(Explain {
            lines: matches.get_flag("lines"),
            color: color_of(matches.get_str("color")),
            file,
        }),
        Verb::Trace => Asked::Trace(Trace {
            chart: matches.get_flag("chart"),
            file,
        }),
    }
}

// What the words behind a command ask for.
fn asked_by<'a>(alloc: Global, verb: Verb, words: &'a [String]) -> Result<Asked<'a>, AllocError> {
    match form_of(alloc, verb)?.try_get_matches_from(words) {
        Ok(matches) => Ok(asked_in(verb, &matches)),
        Err(e) if e.kind() == ErrorKind::OutOfMemory => Err(AllocError),
        Err(_) => Ok(Asked::Usage),
    }
}

/// What the words ask for. The first may be the command `explain`, which is also meant where no command stands there, or
/// the command `trace`.
pub fn asked_of<'a>(alloc: Global, words: &'a [String]) -> Result<Asked<'a>, AllocError> {
    match words {
        [first, rest @ ..] if first.as_str() == "explain" => asked_by(alloc, Verb::Explain, rest),
        [first, rest @ ..] if first.as_str() == "trace" => asked_by(alloc, Verb::Trace, rest),
        _ => asked_by(alloc, Verb::Explain, words),
    }
}
