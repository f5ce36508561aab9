//! The line that is printed for a status.

ghost use Rattle.std.specs.Prelude.{◌≡◌, ◌++◌, IfOk, OnOk, codes, decimal, string_bytes};
ghost use Rattle.run_status.specs.Lines.{line, role_text};
ghost use Rattle.run_status.specs.declared.status.Status.TheVariants as status;

use crate::status::{LogCause, Status, WrongCause};
use command_words::{Role, UsageFault};
use csv_instance::InstanceFault;
use cyclic_plan::CycleFault;
use dsa_model::NoMemory;
use std::alloc::Global;
use trace_import::TraceFault;

/// Appends the line of a word and a number.
fn append_number(text: &mut String, word: &str, number: u64) -> Result<(), NoMemory>
    ensures { let number = codes " " ++ decimal number ++ codes "\n" in
        OnOk result (string_bytes text.new ≡ string_bytes text.old ++ (word.now ++ number)) }
{
    Ok(writeln!(text, "{word} {number}")?)
}

/// Appends the line of a word and two numbers.
fn append_pair(text: &mut String, word: &str, first: u64, second: u64) -> Result<(), NoMemory>
    ensures { let pair = codes " " ++ decimal first ++ codes " " ++ decimal second ++ codes "\n" in
        OnOk result (string_bytes text.new ≡ string_bytes text.old ++ (word.now ++ pair)) }
{
    Ok(writeln!(text, "{word} {first} {second}")?)
}

/// Appends the line of a word and the option of a file.
fn append_role(text: &mut String, word: &str, role: Role) -> Result<(), NoMemory>
    ensures { let option = codes " " ++ role_text role ++ codes "\n" in
        OnOk result (string_bytes text.new ≡ string_bytes text.old ++ (word.now ++ option)) }
{
    Ok(writeln!(text, "{word} {}", role.option().word())?)
}

/// Appends the line of a layout that is wrong.
fn append_wrong(text: &mut String, cause: WrongCause) -> Result<(), NoMemory>
    ensures { OnOk result
        (string_bytes text.new ≡ string_bytes text.old ++ line (status.Wrong cause)) }
{
    text.push_str("wrong ")?;
    match cause {
        WrongCause::Offsets(fault) => fault.append_to(text)?,
        WrongCause::Layout(fault) => fault.append_to(text)?,
    }
    Ok(text.push_str("\n")?)
}

/// Appends the line of a log that is refused.
fn append_refused(text: &mut String, cause: LogCause) -> Result<(), NoMemory>
    ensures { OnOk result
        (string_bytes text.new ≡ string_bytes text.old ++ line (status.LogRefused cause)) }
{
    text.push_str("refused ")?;
    match cause {
        LogCause::Text(fault) => fault.append_to(text)?,
        LogCause::Check(fault) => fault.append_to(text)?,
    }
    Ok(text.push_str("\n")?)
}

/// Appends the line of a file that is no trace.
fn append_trace(text: &mut String, fault: TraceFault) -> Result<(), NoMemory>
    ensures { OnOk result
        (string_bytes text.new ≡ string_bytes text.old ++ line (status.TraceRefused fault)) }
{
    text.push_str("trace ")?;
    fault.append_to(text)?;
    Ok(text.push_str("\n")?)
}

/// Appends the line of a file without buffers of one period.
fn append_cycle(text: &mut String, fault: CycleFault) -> Result<(), NoMemory>
    ensures { OnOk result
        (string_bytes text.new ≡ string_bytes text.old ++ line (status.CycleRefused fault)) }
{
    text.push_str("cycle ")?;
    fault.append_to(text)?;
    Ok(text.push_str("\n")?)
}

/// Appends the line of words that are no command.
fn append_usage(text: &mut String, fault: UsageFault) -> Result<(), NoMemory>
    ensures { OnOk result
        (string_bytes text.new ≡ string_bytes text.old ++ line (status.Usage fault)) }
{
    text.push_str("usage ")?;
    fault.append_to(text)?;
    Ok(text.push_str("\n")?)
}

/// Appends the line of an input that is no instance.
fn append_malformed(text: &mut String, fault: InstanceFault) -> Result<(), NoMemory>
    ensures { OnOk result
        (string_bytes text.new ≡ string_bytes text.old ++ line (status.Malformed fault)) }
{
    text.push_str("malformed ")?;
    fault.append_to(text)?;
    Ok(text.push_str("\n")?)
}

/// Appends the line of a status.
fn append_line(text: &mut String, status: Status) -> Result<(), NoMemory>
    ensures { OnOk result (string_bytes text.new ≡ string_bytes text.old ++ line status) }
{
    match status {
        Status::Feasible { capacity } => append_number(text, "feasible", capacity),
        Status::Infeasible { capacity } => append_number(text, "infeasible", capacity),
        Status::Least { capacity } => append_number(text, "least", capacity),
        Status::Open { low, high } => append_pair(text, "open", low, high),
        Status::Trimmed { before, after } => append_pair(text, "trimmed", before, after),
        Status::Upgraded { lines } => append_number(text, "upgraded", lines),
        Status::Drawn { rectangles } => append_number(text, "drawn", rectangles),
        Status::Imported { buffers } => append_number(text, "imported", u64::from(buffers)),
        Status::TraceRefused(fault) => append_trace(text, fault),
        Status::Unrolled { buffers } => append_number(text, "unrolled", u64::from(buffers)),
        Status::CycleRefused(fault) => append_cycle(text, fault),
        Status::Classed { height, load } => append_pair(text, "classes", height, load),
        Status::NotPlain { buffer } => append_number(text, "not plain", u64::from(buffer)),
        Status::Core { members } => append_number(text, "core", u64::from(members)),
        Status::NoCore { capacity } => append_number(text, "no core", capacity),
        Status::TooMany { count } => append_number(text, "too many", count),
        Status::Right => Ok(text.push_str("right\n")?),
        Status::Accepted { capacity } => append_number(text, "accepted", capacity),
        Status::Wrong(cause) => append_wrong(text, cause),
        Status::LogRefused(cause) => append_refused(text, cause),
        Status::Usage(fault) => append_usage(text, fault),
        Status::Malformed(fault) => append_malformed(text, fault),
        Status::ReadFault(role) => append_role(text, "unread", role),
        Status::TooLong(role) => append_role(text, "too long", role),
        Status::WriteFault(role) => append_role(text, "unwritten", role),
        Status::Shown | Status::PrintFault | Status::NoMemory => Ok(()),
    }
}

/// The line of a status.
pub fn status_line(alloc: Global, status: Status) -> Result<String, NoMemory>
    ensures { IfOk result (λ text. string_bytes text ≡ line status) }
{
    let mut text = String::new(alloc);
    append_line(&mut text, status)?;
    Ok(text)
}

/// The line that tells that the file of this role could not be written. It takes no memory, so it
/// is there when the write has failed.
pub fn unwritten_line(role: Role) -> &'static str
    ensures { result.now ≡ line (status.WriteFault role) }
{
    match role {
        Role::Input => "unwritten --input\n",
        Role::Layout => "unwritten --layout\n",
        Role::Log => "unwritten --log\n",
        Role::Trace => "unwritten --trace\n",
        Role::Output => "unwritten --output\n",
    }
}
