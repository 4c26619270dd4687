// Markings and value lists: read front to back; what is kept of them is where their values stand, and how many.
// Functions that read a table's fields require that its bytes were read as a table.
#![tactic(auto)]

mod reading;
mod values;

pub use reading::{Fields, has_count, read};
pub use values::{is_listed, read_values};
