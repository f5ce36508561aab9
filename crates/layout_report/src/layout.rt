//! The report of a layout.

ghost use Rattle.std.specs.Prelude.{◌≡◌, Ok, IfOk};
ghost use Rattle.dsa_terms.specs.Buffers.{Instance as InstanceTerm};
ghost use Rattle.dsa_terms.specs.Layouts.{IsLayout};
ghost use Rattle.dsa_model.specs.Limits.{number_limit};
ghost use Rattle.csv_instance.specs.Parse.{parse};
ghost use Rattle.layout_report.specs.Report.{IsReportOf};

use crate::row_list::rows_at_peak;
use crate::row_text::{peak_line, report_text};
use csv_instance::Table;
use dsa_model::{NoMemory, height};
use lifetime::Sections;
use load_profile::Profile;
use std::alloc::Global;

/// The report of a layout at the instance's peak, the least moment of greatest load. The first line
/// is `moment T load L height H`: the peak, its load and the layout's height, in bytes; for no
/// buffers it is `moment none load 0 height 0`. Then comes a CSV table `place,size,id` in order of
/// place, in bytes: a row for each buffer that is live at the peak, and one with an empty id for
/// each free range, a greatest range of addresses below the height that no such buffer meets.
///
/// The caller owes offsets that are a layout of the table's instance at 2^60.
pub fn report(alloc: Global, table: &Table, offsets: &[u64]) -> Result<Vec<u8>, NoMemory>
    requires { (I : InstanceTerm) × (parse table.now ≡ Ok I) × IsLayout I number_limit offsets.now }
    ensures text { IfOk result (λ text. (I : InstanceTerm) → parse table.now ≡ Ok I →
        IsReportOf table.now I offsets.now text.items) }
{
    let instance = table.instance();
    let sections = Sections::build(alloc, instance)?;
    let peak = Profile::build(alloc, instance, &sections)?.peak();
    let height = height(instance, offsets);
    let rows = rows_at_peak(alloc, instance, offsets, peak, height)?;
    let line = peak_line(alloc, peak, height)?;
    report_text(alloc, table, line, &rows)
}
