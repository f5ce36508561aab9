//! Marking the lines that a log's end needs.

ghost use Rattle.std.specs.Prelude.{◌≡◌, ℕ, ◌<◌, length, map, IfOk};
ghost use Rattle.std.specs.List.{flat_map};
ghost use Rattle.dsa_terms.specs.Claims.{IsIn};
ghost use Rattle.dsa_trim_laws.specs.Trimmed.{cited, cited_line, needed};
ghost use Rattle.refute_log.specs.Lines.{cite_value, line_value};
ghost use Rattle.log_trim.specs.Marks.{AreMarkedToo, CiteEarlier, marks_of};

use refute_log::{Cite, ClosedLog, Line};
use std::alloc::{AllocError, Global};

/// Marks the line that the cite names.
fn mark(marks: &mut [bool], cite: Cite)
    requires { (k : ℕ) → IsIn k (cited_line (cite_value cite)) → k < length marks.old }
    ensures { AreMarkedToo (cited_line (cite_value cite)) marks.old marks.new }
{
    if let Cite::Line(k) = cite {
        marks[k as usize] = true;
    }
}

/// Marks each line that one of the cites names.
fn mark_each(marks: &mut [bool], cites: &[Cite])
    requires { (k : ℕ) → IsIn k (flat_map cited_line (map cite_value cites.now)) →
        k < length marks.old }
    ensures { let named = flat_map cited_line (map cite_value cites.now) in
        AreMarkedToo named marks.old marks.new }
{
    for cite in cites {
        mark(marks, *cite);
    }
}

/// Marks each line that the line cites.
fn mark_cited(marks: &mut [bool], line: &Line)
    requires { (k : ℕ) → IsIn k (cited (line_value line.now)) → k < length marks.old }
    ensures { AreMarkedToo (cited (line_value line.now)) marks.old marks.new }
{
    match line {
        Line::Over { .. } => {}
        Line::Cases { cites, .. } => mark_each(marks, cites.as_slice()),
    }
}

/// For each line whether the end needs it: it is the end's line, or a needed one cites it.
pub(crate) fn needed(alloc: Global, log: &ClosedLog) -> Result<Vec<bool>, AllocError>
    requires { CiteEarlier log.now.lines }
    ensures { let n = length log.now.lines in
        IfOk result (λ marks. marks.items ≡ marks_of n (needed log.now)) }
{
    let mut marks = vec![in alloc; false; log.len() as usize]?;
    marks[log.end() as usize] = true;
    for k in (0..marks.len()).rev() {
        if marks[k] {
            mark_cited(&mut marks, log.line(k as u64));
        }
    }
    Ok(marks)
}
