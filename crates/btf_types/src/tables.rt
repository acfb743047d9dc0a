//! A checked file, the two tables of types, which own or borrow their bytes, and what they consist
//! of.

mod checked_file;
mod file_sections;
mod items;
mod offsets;
mod owned;
mod records;
mod section_table;
mod string_ends;
pub(crate) mod table;
mod view;

pub use checked_file::CheckedFile;
pub use file_sections::FileSections;
pub use items::Items;
pub(crate) use offsets::{KeptOffsets, record_offsets};
pub use owned::Btf;
pub use records::Records;
pub(crate) use section_table::{KeepsSections, SectionTable};
pub(crate) use string_ends::{push_long_ends, text_end_with};
pub use table::TypeTable;
pub use view::BtfView;
