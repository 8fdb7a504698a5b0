//! What the programs have in common: reading their command lines, and the texts about themselves.
//!
//! `read_words` returns the words after the program's name, and `read_command_line` returns what the words ask for. No
//! clause says which words these are, since the system gives them; the stored runs of the programs test it. `text_of`
//! returns exactly the text that the words ask for, if they ask for one (`asked_text`): a program's help, its version,
//! or what a cause of an error line means. `text_of` allocates no memory. `CAUSES` is the table of these causes.
#![tactic(auto)]

mod causes;
mod command_line;
mod texts;

pub use causes::{CAUSES, CauseText};
pub use command_line::{Asked, NoWords, read_command_line, read_words, show_text};
pub use texts::{ProgramTexts, text_of};
pub use weave_base::Words;
