//! Connects the program with its caller: the command line, the input and output files, the lines on standard error and the exit statuses.
//!
//! Begin with `command.rt`, the command line for `clap`. `command_rows.rt` has the commands and `argument_rows.rt` their arguments, whose forms are in
//! `arguments.rt`; `names.rt` has the names of their values, `texts.rt` the help after them, and `words.rt` the words that the caller gave.
//! `sources.rt` finds texts by their names, and `files.rt` reads them. `exit_status.rt` has the exit statuses and prints error lines,
//! `heartbeat.rt` prints progress lines during long work, and `stack.rt` takes room for the stack. `terminal.rt` has the width of the terminal.
//!
//! `atomic_target.rt` has the contract of a place whose text is replaced atomically, and `atomic_file.rt` implements it for the system's files: it
//! writes a new file in the same folder, syncs it to the device, and renames it. `outputs.rt` refuses an output that the command also reads,
//! `unfinished.rt` removes what interrupted commands have left, and `paths.rt` says where paths lead.
#![tactic(auto)]

mod argument_rows;
mod arguments;
mod atomic_file;
mod atomic_target;
mod command;
mod command_rows;
mod exit_status;
mod files;
mod heartbeat;
pub mod names;
mod outputs;
mod paths;
mod sources;
mod stack;
mod terminal;
mod texts;
mod unfinished;
mod words;

pub use atomic_file::AtomicFile;
pub use atomic_target::{AtomicTarget, finish};
pub use command::matches_of;
pub use exit_status::{ExitStatus, no_memory, print_error, usage};
pub use files::{ReadFault, UnreadText, read_source, read_text, read_texts};
pub use heartbeat::Heartbeat;
pub use outputs::prepare_outputs;
pub use sources::{FileSource, FileSources, Sources};
pub use stack::grow_stack;
pub use terminal::terminal_columns;
pub use unfinished::FolderLocks;
pub use words::{explains, input_once, program_arguments};
