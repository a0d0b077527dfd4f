//! Questions for help and for the version of the program, and their answer.

use std::alloc::{AllocError, Global};

/// The version of the program.
pub const VERSION: &str = "0.1.0";

/// The kits that prove and build the program. Both have one logic.
const KITS: &str = "rattle-kit-13b or rattle-kit-13f (logic dac8208d650f15bf)";

/// Returns whether the arguments are a question for help or for the version.
pub fn is_question(words: &[&str]) -> bool {
    match words {
        [word] => is_help(word) || *word == "help" || *word == "--version" || *word == "-V",
        [name, word] => *name == "help" || is_help(word),
        _ => false,
    }
}

fn is_help(word: &str) -> bool {
    word == "--help" || word == "-h"
}

/// Returns the version of the program, the kit, and the page that explains the commands.
pub fn about(alloc: Global) -> Result<String, AllocError> {
    format!(in alloc;
        "version {VERSION}, proved and built with {KITS}\ndocs/COMMANDS.md explains each command, its options and statuses; docs/HOUSEHOLD.md is a first share, step by step"
    )
}
