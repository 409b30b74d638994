//! What the words of the command line ask for.

ghost use Rattle.std.specs.Prelude.{◌≡◌, ◌<◌, ◌≤◌, IfErr, IfOk, codes, map};
ghost use Rattle.clap.specs.Words.{first_value, found_of, one_text, rows_of};
ghost use Rattle.sab_cli.specs.Command.Asked.{AreTimeouts, AsksFor, IsAsked, IsFailure, IsForm, IsFormat, IsGiven};
ghost use Rattle.sab_cli.specs.Command.Asked.{IsJudge};
ghost use Rattle.sab_cli.specs.Command.Asked.{IsLimit, IsLines, IsMix, IsRaceJob, IsRefused, IsReplay, IsSearchForm};
ghost use Rattle.sab_cli.specs.Command.Asked.{IsSearchJob, IsShare, IsSpins, IsVerdictFormat};
ghost use Rattle.sab_cli.specs.Command.Job.{HasRoom, IsTaskWithinLimits, IsWithinLimits};
ghost use Rattle.sab_cli.specs.Command.Source.{Names};

use crate::command::command_line::command;
use crate::command::job::{Job, RaceJob, RunForm, SearchForm, SearchJob};
use crate::command::request::{Request, Source, Task};
use clap::{ArgMatches, Command, Error};
use sab_automata::Timeouts;
use sab_race::{MAX_SPINS, Share};
use sab_report_text::text::{Format, Lines, ReportForm, VerdictFormat};
use std::alloc::Global;
use std::convert::AsStr;

/// Whether the flag of this name is given.
fn has_flag(matches: &ArgMatches<'_>, name: &str) -> bool
    ensures { IsGiven (first_value (found_of matches.now) name.now) result }
{
    matches!(matches.get_str(name), Some("true"))
}

/// How the agents are to share the simulator.
fn share_of(matches: &ArgMatches<'_>) -> Share
    ensures { IsShare (first_value (found_of matches.now) (codes "share")) result }
{
    match matches.get_str("share") {
        Some("ring") => Share::Ring,
        _ => Share::Lock,
    }
}

/// How often an agent is to step at a wait.
fn spins_of(matches: &ArgMatches<'_>) -> u32
    ensures limit { result ≤ MAX_SPINS }
    ensures number { IsSpins (one_text (found_of matches.now) (codes "spins")) result }
{
    let spins = matches.get_one::<u32>("spins").unwrap_or(0);
    spins.min(MAX_SPINS)
}

/// The seed that the threads are to be mixed by, if one is given.
fn mix_of(matches: &ArgMatches<'_>) -> Option<u64>
    ensures { IsMix (one_text (found_of matches.now) (codes "mix")) result }
{
    matches.get_one::<u64>("mix")
}

/// In which format a report is to be written.
fn format_of(matches: &ArgMatches<'_>) -> Format
    ensures { IsFormat (first_value (found_of matches.now) (codes "format")) result }
{
    match matches.get_str("format") {
        Some("explained") => Format::Explained,
        Some("json") => Format::Json,
        Some("svg") => Format::Svg,
        _ => Format::Plain,
    }
}

/// Which entries are to have a line.
fn lines_of(matches: &ArgMatches<'_>) -> Lines
    ensures { IsLines (first_value (found_of matches.now) (codes "acts")) result }
{
    if has_flag(matches, "acts") {
        Lines::Acts
    } else {
        Lines::All
    }
}

/// In which form a run is to be written.
fn form_of(matches: &ArgMatches<'_>) -> RunForm
    ensures { IsForm (first_value (found_of matches.now) (codes "format"))
        (first_value (found_of matches.now) (codes "acts")) result }
{
    if matches.get_str("format") == Some("script") {
        return RunForm::Script;
    }
    RunForm::Report(ReportForm {
        format: format_of(matches),
        lines: lines_of(matches),
    })
}

/// How a verdict is to be written.
fn verdict_format_of(matches: &ArgMatches<'_>) -> VerdictFormat
    ensures { IsVerdictFormat (first_value (found_of matches.now) (codes "format")) result }
{
    match matches.get_str("format") {
        Some("json") => VerdictFormat::Json,
        _ => VerdictFormat::Plain,
    }
}

/// The replay that is asked for.
fn replay_task(matches: &ArgMatches<'_>) -> Task
    ensures task { IsReplay (rows_of (found_of matches.now)) result }
    ensures limits { IsTaskWithinLimits result }
{
    let form = form_of(matches);
    let finish = has_flag(matches, "finish");
    Task::OfScript(Job::Replay { form, finish })
}

/// The race that is asked for.
fn race_job(matches: &ArgMatches<'_>) -> RaceJob
    ensures job { IsRaceJob (rows_of (found_of matches.now)) result }
    ensures limits { IsWithinLimits result }
{
    RaceJob {
        share: share_of(matches),
        spins: spins_of(matches),
        mix: mix_of(matches),
        form: form_of(matches),
        finish: has_flag(matches, "finish"),
    }
}

/// What is to be judged.
fn judge_task(matches: &ArgMatches<'_>) -> Task
    ensures task { IsJudge (rows_of (found_of matches.now)) result }
    ensures limits { IsTaskWithinLimits result }
{
    let format = verdict_format_of(matches);
    if has_flag(matches, "trace") {
        return Task::OfTrace(format);
    }
    let finish = has_flag(matches, "finish");
    Task::OfScript(Job::Judge { format, finish })
}

/// When a wait may end by its timeout.
fn timeouts_of(matches: &ArgMatches<'_>) -> Timeouts
    ensures { AreTimeouts (first_value (found_of matches.now) (codes "timeouts")) result }
{
    match matches.get_str("timeouts") {
        Some("last") => Timeouts::Last,
        Some("never") => Timeouts::Never,
        _ => Timeouts::Early,
    }
}

/// How many states are to be listed at most.
fn limit_of(matches: &ArgMatches<'_>) -> u32
    ensures room { 0 < result }
    ensures number { IsLimit (one_text (found_of matches.now) (codes "limit")) result }
{
    let limit = matches.get_one::<u32>("limit").unwrap_or(1_000_000);
    limit.max(1)
}

/// Which failure a script is to replay to, if one is named.
fn failure_of(matches: &ArgMatches<'_>) -> Option<u32>
    ensures { IsFailure (one_text (found_of matches.now) (codes "failure")) result }
{
    matches.get_one::<u32>("failure")
}

/// In which form what a search finds is to be written.
fn search_form_of(matches: &ArgMatches<'_>) -> SearchForm
    ensures { IsSearchForm (first_value (found_of matches.now) (codes "format"))
        (first_value (found_of matches.now) (codes "states")) (one_text (found_of matches.now) (codes "failure"))
        result }
{
    match matches.get_str("format") {
        Some("script") => SearchForm::Script {
            failure: failure_of(matches),
        },
        _ => SearchForm::Findings {
            format: verdict_format_of(matches),
            states: has_flag(matches, "states"),
        },
    }
}

/// The search that is asked for.
fn search_job(matches: &ArgMatches<'_>) -> SearchJob
    ensures job { IsSearchJob (rows_of (found_of matches.now)) result }
    ensures room { HasRoom result }
{
    SearchJob {
        timeouts: timeouts_of(matches),
        limit: limit_of(matches),
        form: search_form_of(matches),
    }
}

/// Where the input is read from: standard input if no file is given, or `-`.
fn source_of<'a>(matches: &ArgMatches<'a>) -> Source<'a>
    ensures { Names (first_value (found_of matches.now) (codes "file")) result }
{
    match matches.get_str("file") {
        None => Source::Standard,
        Some("-") => Source::Standard,
        Some(name) => Source::File(name),
    }
}

/// What the subcommand of this name asks for.
fn request_by<'a>(name: &str, matches: &ArgMatches<'a>) -> Request<'a>
    ensures asked { AsksFor name.now (rows_of (found_of matches.now)) result }
    ensures limits { IsTaskWithinLimits result.task }
{
    let source = source_of(matches);
    let task = match name {
        "replay" => replay_task(matches),
        "race" => Task::OfRace(race_job(matches)),
        "judge" => judge_task(matches),
        "search" => Task::OfSearch(search_job(matches)),
        _ => {
            return Request {
                task: Task::OfScript(Job::Check),
                source,
                explain: false,
            };
        }
    };
    Request {
        task,
        source,
        explain: has_flag(matches, "explain"),
    }
}

/// What the words ask for, of which the first is the program's name.
///
/// An error is a request for help too, and OutOfMemory if memory ran out while the command line was built or read.
pub fn request_of<'a, S: AsStr>(alloc: Global, words: &'a [S]) -> Result<Request<'a>, Error>
    ensures asked { IfOk result (λ request. IsAsked (map S.text words.entry.now) request) }
    ensures limits { IfOk result (λ request. IsTaskWithinLimits request.task) }
    ensures refused { IfErr result (λ error. IsRefused (map S.text words.entry.now) error) }
{
    let command: Command<'a> = command(alloc)?;
    let matches = command.try_get_matches_from(words)?;
    match matches.subcommand() {
        Some((name, matches)) => Ok(request_by(name, matches)),
        None => unreachable!(),
    }
}
