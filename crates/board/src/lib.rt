// Row 8, over what is held: the offers built and the ends put in order.
// Functions that read a table's fields require that its bytes were read as a table.
#![tactic(auto)]

mod reading;

pub use reading::{Counts, lay};
