//! Reads the lines of a template in AT&T syntax, as GNU as reads them.
#![tactic(auto)]

mod address;
mod choice;
mod chosen;
mod code;
mod cut;
mod elements;
mod facts;
mod goals;
mod implicit;
mod label;
mod leaf;
mod line;
mod named;
mod number;
mod operand;
mod placed_line;
mod places;
mod raw;
mod reader;
mod register;
mod seen;
mod spelling;
mod table;
mod text;
mod words;

pub use implicit::unasked;
pub use placed_line::instantiate;
pub use reader::read_lines;
pub use table::NAMES;
