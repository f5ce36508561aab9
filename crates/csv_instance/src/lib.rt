//! Instances and layouts as CSV: an instance file is read into a table, a layout is written as the
//! table's records with an offset each, a layout file is read back into offsets by buffer, and some
//! rows of a table are written as an instance file of their own. A file can also be read as rows
//! alone, which need not tell of buffers, and be written again with other moments.
#![tactic(auto)]

mod changed;
mod chosen_rows;
mod columns;
mod fault;
mod fault_texts;
mod gaps;
mod growing;
mod header;
mod layout;
mod layout_laws;
mod offset_row;
mod offsets;
mod read;
mod records;
mod row;
mod row_list;
mod table;
mod writing;

pub use changed::write_changed;
pub use chosen_rows::write_rows;
pub use columns::Column;
pub use fault::{InstanceFault, OffsetsFault};
pub use layout::write_layout;
pub use layout_laws::layouts_read_back;
pub use offsets::read_offsets;
pub use read::{read_instance, read_rows};
pub use row_list::Rows;
pub use table::Table;
pub use writing::{text_writer, write_fields, written_text};
