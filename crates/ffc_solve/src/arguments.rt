//! The arguments of the command line.
ghost use Rattle.std.specs.Prelude.{◌≡◌, ◌≢◌, [], codes, false, map, option_map, unwrap_or};
ghost use Rattle.std.specs.Prelude.{IfOk, IsErr, IsErrOf};
ghost use Rattle.clap.specs.Words.{app_of, first_value, found_of, kind_of, new_app, rule_of};
ghost use Rattle.ffc_solve.specs.Arguments.{AreRefused, HasPlan, is_set, task_of};
ghost use Rattle.ffc_solve.specs.Arguments.{bits_rule, cert_rule, make_rule, solve_app, steps_rule, without_help};

use clap::error::ErrorKind;
use clap::{Arg, ArgAction, ArgMatches, Command, Error, value_parser};
use std::alloc::{AllocError, Global};
use std::marker::Model;
use thiserror::Error;

/// The units of work that a check may take, where the arguments do not say it.
const DEFAULT_STEPS: u64 = 1_000_000;

/// The most units of work that may be asked for.
const MOST_STEPS: i64 = 1_000_000_000_000;

/// The largest generated script.
const MOST_MADE: i64 = 10_000;

/// The name of a file. Clauses see its text.
#[derive(Debug, Drop)]
pub struct Name {
    text: String,
}

impl Model for Name {
    ghost use Rattle.std.specs.Prelude.{List, ℕ, string_bytes};

    ghost Value = { List ℕ };

    ghost view = { λ n. string_bytes n.text };
}

impl Name {
    ghost use Rattle.std.specs.Prelude.{◌≡◌};

    pub fn as_str(&self) -> &str
        ensures { result.now ≡ self.now }
    {
        self.text.as_str()
    }
}

/// What each check is decided with.
#[derive(Clone, Copy)]
pub struct Task {
    /// The units of work that a check may take.
    pub steps: u64,
    /// Whether refutations may have lines of bits, so that the certificate is of version 3.
    pub bits: bool,
}

/// What the arguments `--cert FILE [--steps N] [--make N] [--bits]` ask for.
#[derive(Debug, Drop)]
pub struct Plan {
    /// The name of the certificate's file.
    pub cert_name: Name,
    /// The units of work that a check may take.
    pub steps: u64,
    /// The size of a generated script, where one is asked for.
    pub make: Option<u64>,
    /// Whether the certificate is of version 3.
    pub bits: bool,
}

/// Why there is no plan.
#[derive(Clone, Copy, Debug, PartialEq, Eq, Error)]
pub enum PlanStop {
    /// The arguments are refused.
    #[error("the arguments are refused")]
    Usage,
    /// Out of memory.
    #[error("out of memory")]
    Memory,
}

impl From<AllocError> for PlanStop {
    ghost use Rattle.ffc_solve.specs.declared.arguments.PlanStop.TheVariants.{Memory};

    ghost from_gives = { λ _ stop. stop ≡ Memory };

    fn from(_error: AllocError) -> PlanStop {
        PlanStop::Memory
    }
}

/// The argument that names the certificate's file.
fn cert_argument<'a>(alloc: Global) -> Arg<'a>
    ensures rule { rule_of result ≡ cert_rule }
    ensures own { result.global ≡ false }
{
    Arg::new(alloc, "cert")
        .long("cert")
        .required(true)
        .action(ArgAction::Set)
}

/// The argument of the units of work.
fn steps_argument<'a>(alloc: Global) -> Arg<'a>
    ensures rule { rule_of result ≡ steps_rule }
    ensures own { result.global ≡ false }
{
    Arg::new(alloc, "steps")
        .long("steps")
        .value_parser(value_parser!(u64).range(1..=MOST_STEPS))
        .action(ArgAction::Set)
}

/// The argument of a generated script's size.
fn make_argument<'a>(alloc: Global) -> Arg<'a>
    ensures rule { rule_of result ≡ make_rule }
    ensures own { result.global ≡ false }
{
    Arg::new(alloc, "make")
        .long("make")
        .value_parser(value_parser!(u64).range(1..=MOST_MADE))
        .action(ArgAction::Set)
}

/// The flag that asks for certificates of version 3.
fn bits_flag<'a>(alloc: Global) -> Arg<'a>
    ensures rule { rule_of result ≡ bits_rule }
    ensures own { result.global ≡ false }
{
    Arg::new(alloc, "bits")
        .long("bits")
        .action(ArgAction::SetTrue)
}

/// A command without arguments and without a help flag.
fn bare_command<'a>(alloc: Global) -> Command<'a>
    ensures { app_of result ≡ without_help (new_app (codes "ffsolve")) }
{
    Command::new(alloc, "ffsolve").disable_help_flag(true)
}

/// The command.
fn solve_command<'a>(alloc: Global) -> Result<Command<'a>, AllocError>
    ensures { IfOk result (λ c. app_of c ≡ solve_app) }
{
    bare_command(alloc)
        .arg(cert_argument(alloc))?
        .arg(steps_argument(alloc))?
        .arg(make_argument(alloc))?
        .arg(bits_flag(alloc))
}

/// Why the arguments were not taken.
fn stop_of(error: &Error) -> PlanStop
    ensures { result ≡ PlanStop.Usage → kind_of error.now ≢ ErrorKind.OutOfMemory }
{
    if error.kind() == ErrorKind::OutOfMemory {
        PlanStop::Memory
    } else {
        PlanStop::Usage
    }
}

/// The text that is given, and the empty one where none is.
fn text_in<'a>(matches: &ArgMatches<'a>, id: &str) -> &'a str
    ensures { result.now ≡ unwrap_or (first_value (found_of matches.now) id.now) [] }
{
    match matches.get_str(id) {
        Some(text) => text,
        None => "",
    }
}

/// Whether a flag was given.
fn has_flag(matches: &ArgMatches, id: &str) -> bool
    ensures { result ≡ unwrap_or (option_map is_set (first_value (found_of matches.now) id.now)) false }
{
    match matches.get_str(id) {
        Some(text) => text == "true",
        None => false,
    }
}

impl Plan {
    /// What each check is decided with.
    pub(crate) fn task(&self) -> Task
        ensures { result ≡ task_of self.now }
    {
        Task {
            steps: self.steps,
            bits: self.bits,
        }
    }

    /// Reads the arguments, the program's name first.
    pub fn read<'a>(alloc: Global, words: &'a [&'a str]) -> Result<Plan, PlanStop>
        ensures plan { IfOk result (HasPlan (map (λ w. w.now) words.entry.now)) }
        ensures usage { IsErrOf result PlanStop.Usage → AreRefused (map (λ w. w.now) words.entry.now) }
        ensures refused { AreRefused (map (λ w. w.now) words.entry.now) → IsErr result }
    {
        let command = solve_command(alloc)?;
        let matches = match command.try_get_matches_from(words) {
            Ok(matches) => matches,
            Err(error) => return Err(stop_of(&error)),
        };
        let steps = matches.get_one::<u64>("steps");
        let make = matches.get_one::<u64>("make");
        let name = text_in(&matches, "cert");
        Ok(Plan {
            cert_name: Name {
                text: String::from_str(alloc, name)?,
            },
            steps: steps.unwrap_or(DEFAULT_STEPS),
            make,
            bits: has_flag(&matches, "bits"),
        })
    }
}
