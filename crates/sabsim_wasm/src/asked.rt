//! What a host asks for by numbers.

ghost use Rattle.std.specs.Prelude.{◌≡◌, IfSome};
ghost use Rattle.sab_cli.specs.Command.Job.{HasRoom, IsTaskWithinLimits};
ghost use Rattle.sabsim_wasm.specs.Asked.{form_at, format_at, search_at, task_at, timeouts_at, verdict_format_at};

use sab_automata::Timeouts;
use sab_cli::command::{Job, RunForm, SearchForm, SearchJob, Task};
use sab_report_text::text::{Format, Lines, ReportForm, VerdictFormat};

/// What is to be done with the input; none if a number has no meaning.
pub(crate) fn task_of(job: u32, format: u32, acts: bool, finish: bool) -> Option<Task>
    ensures task { result ≡ task_at job format acts finish }
    ensures limits { IfSome result IsTaskWithinLimits }
{
    match job {
        0 => {
            let form = form_of(format, acts)?;
            Some(Task::OfScript(Job::Replay { form, finish }))
        }
        1 => Some(Task::OfScript(Job::Check)),
        2 => {
            let format = verdict_format_of(format)?;
            Some(Task::OfScript(Job::Judge { format, finish }))
        }
        3 => Some(Task::OfTrace(verdict_format_of(format)?)),
        _ => None,
    }
}

/// In which form a run is to be written.
fn form_of(format: u32, acts: bool) -> Option<RunForm>
    ensures { result ≡ form_at format acts }
{
    if format == 4 {
        return Some(RunForm::Script);
    }
    let format = format_of(format)?;
    let lines = if acts { Lines::Acts } else { Lines::All };
    Some(RunForm::Report(ReportForm { format, lines }))
}

/// The format of a report.
fn format_of(format: u32) -> Option<Format>
    ensures { result ≡ format_at format }
{
    match format {
        0 => Some(Format::Plain),
        1 => Some(Format::Explained),
        2 => Some(Format::Json),
        3 => Some(Format::Svg),
        _ => None,
    }
}

/// The format of a verdict.
fn verdict_format_of(format: u32) -> Option<VerdictFormat>
    ensures { result ≡ verdict_format_at format }
{
    match format {
        0 => Some(VerdictFormat::Plain),
        2 => Some(VerdictFormat::Json),
        _ => None,
    }
}

/// How the input is to be searched; none if a number has no meaning, or there is no room for a state.
pub(crate) fn search_of(timeouts: u32, limit: u32, format: u32, states: bool) -> Option<SearchJob>
    ensures job { result ≡ search_at timeouts limit format states }
    ensures room { IfSome result HasRoom }
{
    if limit == 0 {
        return None;
    }
    let timeouts = timeouts_of(timeouts)?;
    let format = verdict_format_of(format)?;
    Some(SearchJob {
        timeouts,
        limit,
        form: SearchForm::Findings { format, states },
    })
}

/// When a wait may end by its timeout.
fn timeouts_of(timeouts: u32) -> Option<Timeouts>
    ensures { result ≡ timeouts_at timeouts }
{
    match timeouts {
        0 => Some(Timeouts::Early),
        1 => Some(Timeouts::Last),
        2 => Some(Timeouts::Never),
        _ => None,
    }
}
