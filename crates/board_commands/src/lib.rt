//! What the program does with the words that it is called with: it runs a script, a world or a workload, keeps a room, serves matches, plays one, or
//! tries a description of a game. What goes between it and its caller stands here too: its words, its pages, its status and the line on standard error.
#![tactic(auto)]

mod command;
mod describing;
mod hosting;
mod keeping;
mod mode;
mod page;
mod playing;
mod process;
mod running;
mod seating;
mod serving;
mod workloads;

pub use command::{Command, command_of};
pub use describing::{ask, check};
pub use hosting::serve_kept;
pub use keeping::{kept, kept_path};
pub use mode::{Mode, mode_of};
pub use page::{HELP, VERSION, print_page};
pub use playing::play;
pub use process::after_name;
pub use running::run;
pub use seating::seats_of;
pub use serving::serve;
