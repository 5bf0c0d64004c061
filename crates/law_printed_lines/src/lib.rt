//! Laws of what is printed on lines: the lines of a run lead back to each finding's file, place, level, rule and message.
#![tactic(auto)]

ghost use Rattle.law_printed_lines.specs.Steering.{SteerNothing};
ghost use Rattle.law_printed_lines.specs.Escapes.{HaveNoControl, UniqueEscapes};
ghost use Rattle.law_printed_lines.specs.Unique.{UniqueCommands, UniqueConcise, UniqueGcc};

/// Two messages that are written alike on a line are the same, and so are two names.
pub fn unique_escapes()
    ensures { UniqueEscapes }
{}

/// Of a message and of a name no control character is written as it is, and none that turns the direction of a text: so each is on one line,
/// and steers no terminal.
pub fn have_no_control()
    ensures { HaveNoControl }
{}

/// Two lists of files of which the same lines `file:line:column: warning[rule]: message` are printed have the same findings, in the same
/// order: the names of their files, the places where they begin, their levels, rules and messages.
pub fn unique_concise()
    ensures { UniqueConcise }
{}

/// The same of lines `file:line:column: warning: message [rule]`.
pub fn unique_gcc()
    ensures { UniqueGcc }
{}

/// The same of workflow commands, which have the lines on which a finding begins and ends, its columns where both are one line, and its
/// message with its note and its help as one text: where the message ends in it is not said.
pub fn unique_commands()
    ensures { UniqueCommands }
{}

/// Of control characters only line feeds are printed in these three formats, and nothing that turns the direction of a text, whatever the
/// names and the texts of files are.
pub fn steer_nothing()
    ensures { SteerNothing }
{}
