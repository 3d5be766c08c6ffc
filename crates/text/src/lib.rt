// Text that the programs read and write: bytes as hex and hex as bytes, decimal numbers, the words of a line, lists of texts, the first
// place of a byte, the lines of an input, and what is said at the end where something failed.
#![tactic(auto)]

mod decimal;
mod hex;
mod lines;
mod lists;
mod scan;
mod told;
mod words;

pub use decimal::number_of;
pub use hex::{HexError, all_digits, digit, hex20, put_hex, two_digits, unhex, value};
pub use lines::{Line, Lines};
pub use lists::line_of;
pub use scan::find;
pub use told::{Told, counted};
pub use words::{without_return, word_at, word_end};
