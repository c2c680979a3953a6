// What a command line may ask for.

/// What a command is to do. Files are names as the words have them; a schedule has a letter for each turn,
/// and no letters where none was given; a budget counts units, 1,000,000 where none was given.
#[derive(Debug, Drop, PartialEq, Eq)]
pub enum Settings {
    /// Runs two scripts on two sides.
    Run {
        left: String,
        right: String,
        policy: Option<String>,
        schedule: String,
        budget: u32,
        traced: bool,
    },
    /// Runs two scripts on one shared graph.
    Shared {
        left: String,
        right: String,
        schedule: String,
        budget: u32,
        traced: bool,
    },
    /// Checks one script.
    Check {
        file: String,
    },
    /// Makes a pair of scripts and runs it.
    Load {
        start: u32,
        size: u32,
    },
    /// Runs two to eight scripts, each on its side.
    Sides {
        scripts: Vec<String>,
        policy: Option<String>,
        schedule: String,
        budget: u32,
        traced: bool,
    },
}
