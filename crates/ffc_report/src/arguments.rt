//! The arguments of the command line.
use clap::error::ErrorKind;
use clap::{Arg, ArgAction, ArgMatches, Command, Error, value_parser};
use std::alloc::{AllocError, Global};

/// The most units of work that may be asked for.
const MOST_STEPS: i64 = 1_000_000_000_000;

/// The units of work that a check may take, where the arguments do not say it.
const DEFAULT_STEPS: &str = "1000000";

/// What the arguments ask for.
#[derive(Clone, Copy)]
pub struct Request<'a> {
    /// The name of the script; `-` is standard input.
    pub script: &'a str,
    pub steps: &'a str,
    /// Where the certificate is written, if it is.
    pub cert: Option<&'a str>,
    /// A certificate that is judged in place of solving.
    pub judge: Option<&'a str>,
    /// Whether certificates of version 3 are written and read.
    pub bits: bool,
    pub explains: bool,
    pub is_quiet: bool,
}

/// A text in place of a request: why the arguments are refused, or the help or version that they ask for.
#[derive(Drop)]
pub struct Notice {
    pub text: String,
    pub is_error: bool,
}

/// Why there is no request.
#[derive(Drop)]
pub enum RequestStop {
    Notice(Notice),
    /// Out of memory.
    Memory,
}

impl From<AllocError> for RequestStop {
    fn from(_error: AllocError) -> RequestStop {
        RequestStop::Memory
    }
}

fn script_argument<'a>(alloc: Global) -> Arg<'a> {
    Arg::new(alloc, "script")
        .required(true)
        .action(ArgAction::Set)
        .value_name("SCRIPT")
        .help("An SMT-LIB script in the logic QF_FF; - is standard input")
}

fn steps_argument<'a>(alloc: Global) -> Arg<'a> {
    Arg::new(alloc, "steps")
        .long("steps")
        .value_parser(value_parser!(u64).range(1..=MOST_STEPS))
        .action(ArgAction::Set)
        .value_name("N")
        .help("The units of work that a check may take: no limit of time (1000000)")
}

fn file_argument<'a>(alloc: Global, name: &'a str, help: &'a str) -> Arg<'a> {
    Arg::new(alloc, name)
        .long(name)
        .action(ArgAction::Set)
        .value_name("FILE")
        .help(help)
}

fn flag<'a>(alloc: Global, name: &'a str, help: &'a str) -> Arg<'a> {
    Arg::new(alloc, name)
        .long(name)
        .action(ArgAction::SetTrue)
        .help(help)
}

/// The command. The text is shown after its help.
fn command<'a>(alloc: Global, after: &'a str) -> Result<Command<'a>, AllocError> {
    let cert = file_argument(
        alloc,
        "cert",
        "Write the certificate to FILE, once it is accepted",
    );
    let judge = file_argument(
        alloc,
        "judge",
        "Judge the certificate FILE for the script, and solve nothing",
    );
    Command::new(alloc, "yundavel")
        .version("1")
        .about("Decides the checks of a script over finite fields, and has each answer checked")
        .after_help(after)
        .arg(script_argument(alloc))?
        .arg(steps_argument(alloc))?
        .arg(cert)?
        .arg(judge.conflicts_with("cert")?.conflicts_with("steps")?)?
        .arg(flag(
            alloc,
            "bits",
            "Reason about bits as integers, with certificates of version 3",
        ))?
        .arg(flag(alloc, "explain", "Explain each answer in words"))?
        .arg(flag(alloc, "quiet", "Print errors alone"))
}

/// What these matches ask for.
fn request_of<'a>(matches: &ArgMatches<'a>) -> Request<'a> {
    Request {
        script: matches.get_str("script").unwrap_or("-"),
        steps: matches.get_str("steps").unwrap_or(DEFAULT_STEPS),
        cert: matches.get_str("cert"),
        judge: matches.get_str("judge"),
        bits: matches.get_flag("bits"),
        explains: matches.get_flag("explain"),
        is_quiet: matches.get_flag("quiet"),
    }
}

/// The text of an error of `clap`.
fn stop_of(alloc: Global, error: &Error) -> RequestStop {
    if error.kind() == ErrorKind::OutOfMemory {
        return RequestStop::Memory;
    }
    match format!(in alloc; "{error}") {
        Ok(text) => RequestStop::Notice(Notice {
            text,
            is_error: error.use_stderr(),
        }),
        Err(_) => RequestStop::Memory,
    }
}

/// Reads the arguments, the program's name first. The text is shown after the help.
pub fn read_request<'a>(
    alloc: Global,
    words: &'a [&'a str],
    after: &'a str,
) -> Result<Request<'a>, RequestStop> {
    let command = command(alloc, after)?;
    match command.try_get_matches_from(words) {
        Ok(matches) => Ok(request_of(&matches)),
        Err(error) => Err(stop_of(alloc, &error)),
    }
}
