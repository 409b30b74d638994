//! Why a job isn't done.

ghost use Rattle.std.specs.Prelude.{◌≡◌, ◌≢◌};
ghost use Rattle.std.specs.List.{list_any};
ghost use Rattle.std.specs.Str.{chars};
ghost use Rattle.std.specs.IoError.{error_kind};
ghost use Rattle.sab_cli.specs.Run.Failure.{NamesFile, changes_line, explanation_text, is_layout, line_of, unexplained};

use crate::command::Source;
use crate::exit::Complaint;
use sab_replay::faults::ToolFault;
use std::io::{Error, ErrorKind};

/// What is reported about a refusal besides its fault.
#[derive(Drop)]
pub enum Explanation {
    /// Nothing: it isn't asked for, or the fault isn't one of the script, or a check doesn't refuse the script.
    Absent,
    /// There is no memory for it.
    NoMemory,
    /// What a check says about the script, which it refuses, or why the file of automata is refused: a line.
    CheckText(String),
    /// The line of the trace that is refused, from 1.
    AtLine(u32),
}

/// Why a job isn't done.
#[derive(Drop)]
pub struct Failure {
    /// The fault.
    pub fault: ToolFault,
    /// What is reported besides.
    pub explanation: Explanation,
}

impl Failure {
    /// That of a file that can't be opened: OutOfMemory if there is no memory for it, and else ReadFailed.
    pub fn of_open(error: &Error) -> Failure
        ensures memory { error_kind error.now ≡ ErrorKind.OutOfMemory → result ≡ unexplained ToolFault.OutOfMemory }
        ensures other { error_kind error.now ≢ ErrorKind.OutOfMemory → result ≡ unexplained ToolFault.ReadFailed }
    {
        if error.kind() == ErrorKind::OutOfMemory {
            return Failure::from(ToolFault::OutOfMemory);
        }
        Failure::from(ToolFault::ReadFailed)
    }

    /// What the program reports about it, if the script is read from this source.
    ///
    /// A file is named if it can't be opened or read, unless its name has a character that can change how the line is
    /// shown.
    pub fn complaint<'a>(&'a self, source: Source<'a>) -> Complaint<'a>
        ensures fault { result.fault ≡ self.now.fault }
        ensures file { NamesFile source.entry self.now.fault result.file }
        ensures line { result.line ≡ line_of self.now.explanation }
        ensures why { result.why.now ≡ explanation_text self.now.explanation }
    {
        Complaint {
            fault: self.fault,
            file: file_of(source, self.fault),
            line: line_of(&self.explanation),
            why: text_of(&self.explanation),
        }
    }
}

/// The name of the file that failed, if it is reported.
fn file_of<'a>(source: Source<'a>, fault: ToolFault) -> Option<&'a str>
    ensures { NamesFile source.entry fault result }
{
    let Source::File(name) = source else {
        return None;
    };
    if fault != ToolFault::ReadFailed || has_layout(name) {
        return None;
    }
    Some(name)
}

/// Whether a name has a character that can change how its line is shown.
fn has_layout(name: &str) -> bool
    ensures { result ≡ list_any changes_line (chars name.now) }
{
    name.chars().any(changes_line)
}

/// Whether a character can change how its line is shown: a control character, or one of layout.
fn changes_line(character: char) -> bool
    ensures { result ≡ changes_line character }
{
    character.is_control() || is_layout(character)
}

/// Whether a character separates lines, or changes the direction in which text is shown.
fn is_layout(character: char) -> bool
    ensures { result ≡ is_layout character }
{
    matches!(character, '\u{61C}' | '\u{200E}'..='\u{200F}' | '\u{2028}'..='\u{202E}' | '\u{2066}'..='\u{2069}')
}

/// The line of a trace that is refused, if that is reported.
fn line_of(explanation: &Explanation) -> Option<u32>
    ensures { result ≡ line_of explanation.now }
{
    match explanation {
        Explanation::AtLine(line) => Some(*line),
        Explanation::Absent | Explanation::NoMemory | Explanation::CheckText(_) => None,
    }
}

/// What a check says, if that is reported.
fn text_of(explanation: &Explanation) -> &str
    ensures { result.now ≡ explanation_text explanation.now }
{
    match explanation {
        Explanation::CheckText(text) => text.as_str(),
        Explanation::Absent => "",
        Explanation::NoMemory => "",
        Explanation::AtLine(_) => "",
    }
}

impl From<ToolFault> for Failure {
    ghost use Rattle.std.specs.Prelude.{◌≡◌};
    ghost use Rattle.sab_cli.specs.Run.Failure.{unexplained};

    ghost from_gives = { λ fault failure. failure ≡ unexplained fault };

    fn from(fault: ToolFault) -> Failure {
        Failure {
            fault,
            explanation: Explanation::Absent,
        }
    }
}
