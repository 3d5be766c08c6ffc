// A listing of calls: its lines read (`reading`, `lines`), and what is printed for each (`answers`). One call to a line, words parted by
// spaces and tabs; `#` starts a comment. docs/MANUAL.md has the words of each call and the answers.
#![tactic(auto)]

mod answers;
mod lines;
mod reading;

pub use answers::{answer_text, state_text};
pub use lines::{Call, Table, read};
pub use reading::{Bytes, Fault, Wrong};
