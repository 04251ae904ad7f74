#![tactic(auto)]
// Columns of a state substituted and mixed by table (FIPS 197, §5.1.1 with §5.1.3, and §5.3.2 with §5.3.3). A column is the sum of four, each with
// one byte that is not 0, and turning a column turns the mixed one: one table of 256 words serves all four places.
mod column;
mod mixed;
mod unmixed;

pub use column::{mixed_column, unmixed_column};
pub use mixed::mixed_table;
pub use unmixed::unmixed_table;
