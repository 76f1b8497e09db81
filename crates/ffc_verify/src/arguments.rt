//! The arguments of the command line.
ghost use Rattle.std.specs.Prelude.{◌≡◌, ◌≢◌, [], codes, false, map, option_map, unwrap_or, IfOk, IsErrOf};
ghost use Rattle.clap.specs.Words.{app_of, first_value, found_of, kind_of, new_app, rule_of};
ghost use Rattle.ffc_verify.specs.Arguments.{AreTaken, cert_name, wants_bits, wants_cores};
ghost use Rattle.ffc_verify.specs.Arguments.{bits_rule, cert_rule, check_app, cores_rule, is_set, without_help};

use clap::error::ErrorKind;
use clap::{Arg, ArgAction, ArgMatches, Command, Error};
use std::alloc::{AllocError, Global};
use thiserror::Error;

/// What the arguments `CERT [--cores] [--bits]` ask for.
#[derive(Clone, Copy)]
pub struct CheckPlan<'a> {
    /// The name of the certificate.
    pub cert: &'a str,
    /// Whether the cores are printed.
    pub cores: bool,
    /// Whether certificates of version 3 are read.
    pub bits: bool,
}

/// Why there is no plan.
#[derive(Clone, Copy, Debug, PartialEq, Eq, Error)]
pub enum PlanStop {
    /// The arguments are refused.
    #[error("the arguments are refused")]
    Usage,
    /// Out of memory.
    #[error("out of memory")]
    Memory,
}

/// The argument that names the certificate.
fn cert_argument<'a>(alloc: Global) -> Arg<'a>
    ensures rule { rule_of result ≡ cert_rule }
    ensures own { result.global ≡ false }
{
    Arg::new(alloc, "cert")
        .required(true)
        .action(ArgAction::Set)
}

/// The flag that asks for cores.
fn cores_flag<'a>(alloc: Global) -> Arg<'a>
    ensures rule { rule_of result ≡ cores_rule }
    ensures own { result.global ≡ false }
{
    Arg::new(alloc, "cores")
        .long("cores")
        .action(ArgAction::SetTrue)
}

/// The flag that asks for certificates of version 3.
fn bits_flag<'a>(alloc: Global) -> Arg<'a>
    ensures rule { rule_of result ≡ bits_rule }
    ensures own { result.global ≡ false }
{
    Arg::new(alloc, "bits")
        .long("bits")
        .action(ArgAction::SetTrue)
}

/// A command without arguments and without a help flag.
fn bare_command<'a>(alloc: Global) -> Command<'a>
    ensures { app_of result ≡ without_help (new_app (codes "ffcheck")) }
{
    Command::new(alloc, "ffcheck").disable_help_flag(true)
}

/// The command.
fn check_command<'a>(alloc: Global) -> Result<Command<'a>, AllocError>
    ensures { IfOk result (λ c. app_of c ≡ check_app) }
{
    bare_command(alloc)
        .arg(cert_argument(alloc))?
        .arg(cores_flag(alloc))?
        .arg(bits_flag(alloc))
}

/// Whether a flag was given.
fn has_flag(matches: &ArgMatches, id: &str) -> bool
    ensures { result ≡ unwrap_or (option_map is_set (first_value (found_of matches.now) id.now)) false }
{
    match matches.get_str(id) {
        Some(text) => text == "true",
        None => false,
    }
}

/// The text of an argument, or none.
fn text_or_empty(text: Option<&str>) -> &str
    ensures { result.now ≡ unwrap_or (option_map (λ s. s.now) text.entry) [] }
{
    match text {
        Some(text) => text,
        None => "",
    }
}

/// What these matches ask for.
fn plan_of<'a>(matches: &ArgMatches<'a>) -> CheckPlan<'a>
    ensures cert { result.cert.now ≡ unwrap_or (first_value (found_of matches.now) (codes "cert")) [] }
    ensures cores { result.cores ≡ unwrap_or (option_map is_set (first_value (found_of matches.now) (codes "cores")))
        false }
    ensures bits { result.bits ≡ unwrap_or (option_map is_set (first_value (found_of matches.now) (codes "bits"))) false }
{
    CheckPlan {
        cert: text_or_empty(matches.get_str("cert")),
        cores: has_flag(matches, "cores"),
        bits: has_flag(matches, "bits"),
    }
}

/// Why the arguments were not taken.
fn stop_of(error: &Error) -> PlanStop
    ensures { result ≡ PlanStop.Usage → kind_of error.now ≢ ErrorKind.OutOfMemory }
{
    if error.kind() == ErrorKind::OutOfMemory {
        PlanStop::Memory
    } else {
        PlanStop::Usage
    }
}

impl<'a> CheckPlan<'a> {
    /// Reads the arguments, the program's name first.
    pub fn read(alloc: Global, words: &'a [&'a str]) -> Result<CheckPlan<'a>, PlanStop>
        ensures taken { IfOk result (λ plan. AreTaken (map (λ w. w.now) words.entry.now)) }
        ensures cert { IfOk result (λ plan. plan.cert.now ≡ cert_name (map (λ w. w.now) words.entry.now)) }
        ensures cores { IfOk result (λ plan. plan.cores ≡ wants_cores (map (λ w. w.now) words.entry.now)) }
        ensures bits { IfOk result (λ plan. plan.bits ≡ wants_bits (map (λ w. w.now) words.entry.now)) }
        ensures usage { IsErrOf result PlanStop.Usage → ¬ (AreTaken (map (λ w. w.now) words.entry.now)) }
    {
        let command = match check_command(alloc) {
            Ok(command) => command,
            Err(_) => return Err(PlanStop::Memory),
        };
        match command.try_get_matches_from(words) {
            Ok(matches) => Ok(plan_of(&matches)),
            Err(error) => Err(stop_of(&error)),
        }
    }
}
