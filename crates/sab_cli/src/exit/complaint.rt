//! What is reported about a job that failed.

ghost use Rattle.std.specs.Prelude.{◌≡◌, ◌++◌};
ghost use Rattle.std.specs.Fmt.{WritesOnOk};
ghost use Rattle.sab_cli.specs.Exit.Complaint.{file_text, line_text, advice_text};

use crate::exit::fault_line::FaultLine;
use sab_replay::faults::ToolFault;
use std::fmt;

/// What the program says on standard error of a job that failed, in lines.
///
/// Its text is that of the [`FaultLine`], with the file's name behind it where there is one, and the line of the input
/// if that is reported, each behind a colon and a space, and a line feed. Then a line says what can be judged
/// instead, if the fault is OrdinaryData, and then what a check says.
#[derive(Clone, Copy, Debug)]
pub struct Complaint<'a> {
    /// The fault.
    pub fault: ToolFault,
    /// The name of the file that failed, if one did.
    pub file: Option<&'a str>,
    /// The line of the input that is refused, from 1, if that is reported.
    pub line: Option<u32>,
    /// What a check says about the script, in lines; empty if that isn't reported.
    pub why: &'a str,
}

impl fmt::Display for Complaint<'_> {
    ghost use Rattle.std.specs.Prelude.{Some};
    ghost use Rattle.sab_cli.specs.Exit.Complaint.{complaint_text};

    ghost output = { λ complaint. Some (complaint_text complaint) };

    fn fmt<W: fmt::Write>(&self, f: &mut fmt::Formatter<W>) -> fmt::Result {
        let fault = FaultLine(self.fault);
        write!(f, "{fault}")?;
        write_file(f, self.file)?;
        write_line(f, self.line)?;
        f.write_str("\n")?;
        write_advice(f, self.fault, self.why)
    }
}

/// Writes the name of the file that failed, if one did, behind a colon and a space.
fn write_file<W: fmt::Write>(f: &mut fmt::Formatter<W>, file: Option<&str>) -> fmt::Result
    ensures { WritesOnOk W.write_str_gives f.old result (file_text file.entry) f.new }
{
    if let Some(file) = file {
        write!(f, ": {file}")?;
    }
    Ok(())
}

/// Writes the line of the input that is refused, if that is reported, behind a colon and a space.
fn write_line<W: fmt::Write>(f: &mut fmt::Formatter<W>, line: Option<u32>) -> fmt::Result
    ensures { WritesOnOk W.write_str_gives f.old result (line_text line) f.new }
{
    if let Some(line) = line {
        write!(f, ": line {line}")?;
    }
    Ok(())
}

/// Writes what can be done instead of what ended with this fault, and what a check says about the script.
fn write_advice<W: fmt::Write>(
    f: &mut fmt::Formatter<W>,
    fault: ToolFault,
    why: &str,
) -> fmt::Result
    ensures { WritesOnOk W.write_str_gives f.old result (advice_text fault ++ why.now) f.new }
{
    f.write_str(advice_of(fault))?;
    f.write_str(why)
}

/// What can be done instead of what ended with this fault, as a line; empty if there is nothing to say.
fn advice_of(fault: ToolFault) -> &'static str
    ensures { result.now ≡ advice_text fault }
{
    match fault {
        ToolFault::OrdinaryData => concat!(
            "the script may not show all accesses of its run, so judge the run's trace: ",
            "sabsim judge --trace FILE.trace.jsonl\n"
        ),
        _ => "",
    }
}
