//! The command line, with its help.

ghost use Rattle.std.specs.Prelude.{◌≡◌, IfOk, Ok, false};
ghost use Rattle.clap.specs.Words.{app_of, new_app, rule_of};
ghost use Rattle.sab_cli.specs.Command.CommandLine.{HaveRules, IsLocal, Lists, command_line};
ghost use Rattle.sab_cli.specs.Command.CommandLine.{failure_rule, file_rule, flag_rule, format_rule, limit_rule};
ghost use Rattle.sab_cli.specs.Command.CommandLine.{mix_rule};
ghost use Rattle.sab_cli.specs.Command.CommandLine.{number_rule, share_rule};
ghost use Rattle.sab_cli.specs.Command.CommandLine.{judge_rules, report_rules, search_rules, spins_rule, thread_rules};
ghost use Rattle.sab_cli.specs.Command.CommandLine.{timeouts_rule, trace_rule, with_command, with_rules};
ghost use Rattle.sab_cli.specs.Command.CommandLine.{check_app, judge_app, race_app, replay_app, search_app};
ghost use Rattle.sab_cli.specs.Command.CommandLine.{with_checks as checks_in, with_runs as runs_in};
ghost use Rattle.sab_cli.specs.Command.CommandLine.{with_search as search_in};

use crate::command::help;
use clap::{Arg, ArgAction, Command, value_parser};
use sab_race::MAX_SPINS;
use std::alloc::{AllocError, Global};

/// What `--share` takes.
static SHARES: [&str; 2] = ["lock", "ring"];

/// What `--format` takes.
static FORMATS: [&str; 5] = ["plain", "explained", "json", "svg", "script"];

/// What `--format` of a judge takes.
static VERDICT_FORMATS: [&str; 2] = ["plain", "json"];

/// What `--format` of a search takes.
static SEARCH_FORMATS: [&str; 3] = ["plain", "json", "script"];

/// What `--timeouts` takes.
static TIMEOUTS: [&str; 3] = ["early", "last", "never"];

/// The argument that names the input's file.
fn file_argument<'a>(alloc: Global) -> Arg<'a>
    ensures rule { rule_of result ≡ file_rule }
    ensures local { result.global ≡ false }
{
    Arg::new(alloc, "file").value_name("FILE").help(help::FILE)
}

/// The argument that names a format, one of these.
fn format_argument<'a>(alloc: Global, help: &'a str, formats: &'a [&'a str]) -> Arg<'a>
    ensures rule { rule_of result ≡ format_rule formats.entry }
    ensures local { result.global ≡ false }
{
    Arg::new(alloc, "format")
        .long("format")
        .value_name("FORMAT")
        .help(help)
        .default_value("plain")
        .value_parser(formats)
}

/// The argument that says how threads share the simulator, in one of these ways.
fn share_argument<'a>(alloc: Global, shares: &'a [&'a str]) -> Arg<'a>
    ensures rule { rule_of result ≡ share_rule shares.entry }
    ensures local { result.global ≡ false }
{
    Arg::new(alloc, "share")
        .long("share")
        .value_name("WAY")
        .help(help::SHARE)
        .required(true)
        .value_parser(shares)
}

/// The argument that says how often an agent steps at a wait.
fn spins_argument<'a>(alloc: Global) -> Arg<'a>
    ensures rule { rule_of result ≡ spins_rule }
    ensures local { result.global ≡ false }
{
    Arg::new(alloc, "spins")
        .long("spins")
        .value_name("N")
        .help(help::SPINS)
        .default_value("0")
        .value_parser(value_parser!(u32).range(0..=MAX_SPINS as i64))
}

/// The argument that has the seed by which threads are mixed.
fn mix_argument<'a>(alloc: Global) -> Arg<'a>
    ensures rule { rule_of result ≡ mix_rule }
    ensures local { result.global ≡ false }
{
    Arg::new(alloc, "mix")
        .long("mix")
        .value_name("SEED")
        .help(help::MIX)
        .value_parser(value_parser!(u64))
}

/// The argument that says when a wait may time out, in one of these ways.
fn timeouts_argument<'a>(alloc: Global, timeouts: &'a [&'a str]) -> Arg<'a>
    ensures rule { rule_of result ≡ timeouts_rule timeouts.entry }
    ensures local { result.global ≡ false }
{
    Arg::new(alloc, "timeouts")
        .long("timeouts")
        .value_name("WHEN")
        .help(help::TIMEOUTS)
        .default_value("early")
        .value_parser(timeouts)
}

/// An argument that is a number of 32 bits from 1, called by its name.
fn number_argument<'a>(alloc: Global, name: &'a str, value: &'a str, help: &'a str) -> Arg<'a>
    ensures rule { rule_of result ≡ number_rule name.entry.now }
    ensures local { result.global ≡ false }
{
    Arg::new(alloc, name)
        .long(name)
        .value_name(value)
        .help(help)
        .value_parser(value_parser!(u32).range(1..=4_294_967_295))
}

/// The argument that says how many states are listed at most.
fn limit_argument<'a>(alloc: Global) -> Arg<'a>
    ensures rule { rule_of result ≡ limit_rule }
    ensures local { result.global ≡ false }
{
    number_argument(alloc, "limit", "N", help::LIMIT).default_value("1000000")
}

/// The argument that says which failure a script replays to.
fn failure_argument<'a>(alloc: Global) -> Arg<'a>
    ensures rule { rule_of result ≡ failure_rule }
    ensures local { result.global ≡ false }
{
    number_argument(alloc, "failure", "K", help::FAILURE)
}

/// An argument that is there or not, called by its name.
fn flag<'a>(alloc: Global, name: &'a str, help: &'a str) -> Arg<'a>
    ensures rule { rule_of result ≡ flag_rule name.entry.now }
    ensures local { result.global ≡ false }
{
    Arg::new(alloc, name)
        .long(name)
        .help(help)
        .action(ArgAction::SetTrue)
}

/// What says how a report is written, whether all calls are to return, whether a refusal is explained, and the file.
fn report_arguments<'a>(alloc: Global, formats: &'a [&'a str]) -> Result<Vec<Arg<'a>>, AllocError>
    ensures { IfOk result (λ arguments. HaveRules arguments.items (report_rules formats.entry)) }
{
    Ok(vec![in alloc;
        format_argument(alloc, help::FORMAT, formats),
        flag(alloc, "acts", help::ACTS),
        flag(alloc, "finish", help::FINISH),
        flag(alloc, "explain", help::EXPLAIN),
        file_argument(alloc),
    ]?)
}

/// What says how threads share the simulator, how often they step at a wait, and their seed.
fn thread_arguments<'a>(alloc: Global, shares: &'a [&'a str]) -> Result<Vec<Arg<'a>>, AllocError>
    ensures { IfOk result (λ arguments. HaveRules arguments.items (thread_rules shares.entry)) }
{
    Ok(vec![in alloc;
        share_argument(alloc, shares),
        spins_argument(alloc),
        mix_argument(alloc),
    ]?)
}

/// The flag that says that a trace is judged, to which `--finish` and `--explain` mean nothing.
fn trace_flag<'a>(alloc: Global) -> Result<Arg<'a>, AllocError>
    ensures { IfOk result (λ trace. (rule_of trace ≡ trace_rule) × (trace.global ≡ false)) }
{
    let trace = flag(alloc, "trace", help::TRACE).conflicts_with("finish")?;
    trace.conflicts_with("explain")
}

/// What says how a verdict is written, and about what it is.
fn judge_arguments<'a>(alloc: Global, formats: &'a [&'a str]) -> Result<Vec<Arg<'a>>, AllocError>
    ensures { IfOk result (λ arguments. HaveRules arguments.items (judge_rules formats.entry)) }
{
    Ok(vec![in alloc;
        trace_flag(alloc)?,
        format_argument(alloc, help::VERDICT_FORMAT, formats),
        flag(alloc, "finish", help::FINISH),
        flag(alloc, "explain", help::EXPLAIN),
        file_argument(alloc),
    ]?)
}

/// What says how a search is made, how what it finds is written, whether a refusal is explained, and the file.
fn search_arguments<'a>(
    alloc: Global,
    timeouts: &'a [&'a str],
    formats: &'a [&'a str],
) -> Result<Vec<Arg<'a>>, AllocError>
    ensures { IfOk result (λ arguments. HaveRules arguments.items (search_rules timeouts.entry formats.entry)) }
{
    Ok(vec![in alloc;
        timeouts_argument(alloc, timeouts),
        limit_argument(alloc),
        format_argument(alloc, help::SEARCH_FORMAT, formats),
        failure_argument(alloc),
        flag(alloc, "states", help::STATES),
        flag(alloc, "explain", help::EXPLAIN_FILE),
        file_argument(alloc),
    ]?)
}

/// A command, with its help.
fn described<'a>(alloc: Global, name: &'a str, about: &'a str, forms: &'a str) -> Command<'a>
    ensures app { app_of result ≡ new_app name.entry.now }
    ensures local { IsLocal result }
{
    Command::new(alloc, name).about(about).after_help(forms)
}

/// The command with these arguments added.
fn with_arguments<'a>(
    command: Command<'a>,
    arguments: Vec<Arg<'a>>,
) -> Result<Command<'a>, AllocError>
    ensures { IfOk result (λ it. (rules : _) → HaveRules arguments.entry.items rules
        → (app_of it ≡ with_rules (app_of command.entry) rules) × (IsLocal command.entry → IsLocal it)) }
{
    command.args(arguments)
}

/// The command that replays a script.
fn replay_command<'a>(alloc: Global, formats: &'a [&'a str]) -> Result<Command<'a>, AllocError>
    ensures { IfOk result (λ command. (app_of command ≡ replay_app formats.entry) × IsLocal command) }
{
    let arguments = report_arguments(alloc, formats)?;
    let replay = described(alloc, "replay", help::REPLAY, help::REPLAY_FORMS);
    with_arguments(replay, arguments)
}

/// The command that runs a script's agents in threads.
fn race_command<'a>(
    alloc: Global,
    formats: &'a [&'a str],
    shares: &'a [&'a str],
) -> Result<Command<'a>, AllocError>
    ensures { IfOk result (λ command. (app_of command ≡ race_app formats.entry shares.entry) × IsLocal command) }
{
    let race = with_threads(
        alloc,
        described(alloc, "race", help::RACE, help::RACE_FORMS),
        shares,
    )?;
    with_arguments(race, report_arguments(alloc, formats)?)
}

/// The command with the arguments added that are about threads.
fn with_threads<'a>(
    alloc: Global,
    command: Command<'a>,
    shares: &'a [&'a str],
) -> Result<Command<'a>, AllocError>
    ensures app { IfOk result (λ it. app_of it ≡ with_rules (app_of command.entry) (thread_rules shares.entry)) }
    ensures local { IfOk result (λ it. IsLocal command.entry → IsLocal it) }
{
    with_arguments(command, thread_arguments(alloc, shares)?)
}

/// The command that judges a run for unordered accesses.
fn judge_command<'a>(alloc: Global, formats: &'a [&'a str]) -> Result<Command<'a>, AllocError>
    ensures { IfOk result (λ command. (app_of command ≡ judge_app formats.entry) × IsLocal command) }
{
    let arguments = judge_arguments(alloc, formats)?;
    let judge = described(alloc, "judge", help::JUDGE, help::JUDGE_FORMS);
    with_arguments(judge, arguments)
}

/// The command that checks a script.
fn check_command<'a>(alloc: Global) -> Result<Command<'a>, AllocError>
    ensures { IfOk result (λ command. (app_of command ≡ check_app) × IsLocal command) }
{
    described(alloc, "check", help::CHECK, help::CHECK_FORMS).arg(file_argument(alloc))
}

/// The command that searches all schedules of a file of automata.
fn search_command<'a>(
    alloc: Global,
    timeouts: &'a [&'a str],
    formats: &'a [&'a str],
) -> Result<Command<'a>, AllocError>
    ensures { IfOk result (λ command. (app_of command ≡ search_app timeouts.entry formats.entry) × IsLocal command) }
{
    let arguments = search_arguments(alloc, timeouts, formats)?;
    let command = described(alloc, "search", help::SEARCH, help::SEARCH_FORMS);
    with_arguments(command, arguments)
}

/// The command line, with its help.
pub(crate) fn command<'a>(alloc: Global) -> Result<Command<'a>, AllocError>
    ensures { IfOk result (λ command. ((lists : Lists) × (app_of command ≡ command_line lists)) × IsLocal command) }
{
    let sabsim = described(alloc, "sabsim", help::ABOUT, help::STATUSES)
        .version(help::VERSION)
        .subcommand_required(true);
    let sabsim = with_runs(alloc, sabsim, FORMATS.as_slice(), SHARES.as_slice())?;
    let formats = VERDICT_FORMATS.as_slice();
    let sabsim = with_checks(alloc, sabsim, formats)?;
    with_search(
        alloc,
        sabsim,
        TIMEOUTS.as_slice(),
        SEARCH_FORMATS.as_slice(),
    )
}

/// The command with those below it that run agents.
fn with_runs<'a>(
    alloc: Global,
    command: Command<'a>,
    formats: &'a [&'a str],
    shares: &'a [&'a str],
) -> Result<Command<'a>, AllocError>
    ensures app { IfOk result (λ it. app_of it ≡ runs_in (app_of command.entry) formats.entry shares.entry) }
    ensures local { IfOk result (λ it. IsLocal command.entry → IsLocal it) }
{
    let command = with_subcommand(command, replay_command(alloc, formats))?;
    with_subcommand(command, race_command(alloc, formats, shares))
}

/// The command with those below it that say something about a script or a trace.
fn with_checks<'a>(
    alloc: Global,
    command: Command<'a>,
    formats: &'a [&'a str],
) -> Result<Command<'a>, AllocError>
    ensures app { IfOk result (λ it. app_of it ≡ checks_in (app_of command.entry) formats.entry) }
    ensures local { IfOk result (λ it. IsLocal command.entry → IsLocal it) }
{
    let command = with_subcommand(command, judge_command(alloc, formats))?;
    with_subcommand(command, check_command(alloc))
}

/// The command with the one below it that searches all schedules.
fn with_search<'a>(
    alloc: Global,
    command: Command<'a>,
    timeouts: &'a [&'a str],
    formats: &'a [&'a str],
) -> Result<Command<'a>, AllocError>
    ensures app { IfOk result (λ it. app_of it ≡ search_in (app_of command.entry) timeouts.entry formats.entry) }
    ensures local { IfOk result (λ it. IsLocal command.entry → IsLocal it) }
{
    with_subcommand(command, search_command(alloc, timeouts, formats))
}

/// The command with another one below it, if that could be made.
fn with_subcommand<'a>(
    command: Command<'a>,
    made: Result<Command<'a>, AllocError>,
) -> Result<Command<'a>, AllocError>
    ensures { IfOk result (λ it. (below : _) × (made.entry ≡ Ok below)
        × (IsLocal below → (app_of it ≡ with_command (app_of command.entry) (app_of below))
        × (IsLocal command.entry → IsLocal it))) }
{
    command.subcommand(made?)
}
