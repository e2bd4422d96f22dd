// The settings of a run, and what a run says.
//
//     press [-rows N] [-font F] [-out PREFIX] [-store FILE] [-zone MINUTES] [-noclock] [-quiet] [FILE ..]
//     press [-rows N] [-store FILE] [-quiet] -fits form NAME | picture NAME SIZE
//     press [-rows N] [-quiet] -repair -store FILE
//
// What the words of the command line are is crate `options`, what is said in words crates `words` and `reports`. Here arguments, font and files are found
// good before anything is done, what was done goes to standard output unless `-quiet` is given, and what was refused or failed to standard error.
#![tactic(auto)]

ghost use Rattle.std.specs.Prelude.{◌≡◌};
ghost use Rattle.press_settings.specs.Settings.{are_several};

mod name; // an argument or a file's name
pub mod saying; // what is said
mod setup; // the command line, the font, the files
pub mod system; // what is asked of the machine

use ground::capped_sum;
pub use name::Name;
pub use setup::{command_line, font, prefix, readable};
pub use system::Machine;

// Something was refused or failed, and this is told on standard error already.
#[derive(Clone, Copy)]
pub struct Told;

// What -fits asks for: the number of the argument that is its name, and the size of a picture; a form has none.
#[derive(Clone, Copy)]
pub struct Question {
    pub name: usize,
    pub size: Option<usize>,
}

// What a run is for: labels, an answer, or a repaired store.
#[derive(Clone, Copy)]
pub enum Task {
    Labels,
    Answer(Question),
    Repair,
}

// What the command line says. font, out, store and files are numbers of arguments, files the first of those up to count. clock is the zone in which the machine's
// clock is the station's, in minutes ahead of UTC, as a number with a sign counts.
#[derive(Clone, Copy)]
pub struct Settings {
    pub rows: Option<usize>,
    pub font: Option<usize>,
    pub out: Option<usize>,
    pub store: Option<usize>,
    pub files: Option<usize>,
    pub count: usize,
    pub task: Task,
    pub clock: Option<usize>,
    pub quiet: bool,
}

impl Settings {
    // Whether there is more than one file.
    #[tactic(auto, unfolding(crate::specs::Settings::are_several))]
    pub fn are_several(self) -> bool
        ensures { result ≡ are_several self.files self.count }
    {
        match self.files {
            Some(first) => capped_sum(first, 1) < self.count,
            None => false,
        }
    }
}
