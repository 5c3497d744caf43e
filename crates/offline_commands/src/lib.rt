//! The commands that answer what they read, without a network: what is written is a stated function of standard input, or of the files of an
//! audit, a table of books or a seal. What other commands need to read an input and to write an answer stands here too.
#![tactic(auto)]

mod answer;
mod auditing;
mod books;
mod check;
mod command;
mod ending;
mod input;
mod journals;
mod output;
mod plan;
mod relabelling;
mod replay;
mod runner;
mod sealing;
mod spreading;
mod unreadable;

pub use answer::Answer;
pub use auditing::audit_files;
pub use books::books_of_files;
pub use command::run;
pub use ending::{Ending, Status, Stop};
pub use input::{Input, read_input};
pub use output::{write_answer, write_last, write_stop};
pub use sealing::seal_file;
pub use unreadable::Unreadable;
