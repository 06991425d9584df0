//! What the program is to do.

ghost use Rattle.std.specs.Prelude.{◌≤◌, length, IfSome};
ghost use Rattle.std.proofs.Props.{props};
ghost use Rattle.model.specs.Limits.{most_charge, most_files, most_workers};
ghost use Rattle.command_line.specs.Intstore.{longest_limit};

/// What is done, and with which files.
#[derive(Drop)]
pub enum Action {
    /// All lines of a file are run, and their replies are printed.
    Replay {
        /// Whether after each event the store gives back what nobody holds.
        sweep: bool,
        /// Whether it is said behind each refusal what it means.
        explain: bool,
        /// The file whose lines are run.
        file: String,
    },
    /// Those of its events that can reach the user of that name are run, and his replies are printed.
    Strike {
        /// The name of the user.
        user: String,
        /// Whether trust counts only while it is held, and not all that is ever given.
        timed: bool,
        /// The file whose lines are run.
        file: String,
    },
    /// The files are run as sessions of one store that builds.
    Run(Run),
}

/// Sessions of one store that builds.
#[derive(Drop)]
pub struct Run {
    /// How many workers build for each session: 1 to 7.
    pub workers: usize,
    /// The folder with the builders.
    pub builders: String,
    /// The folder for the files that builders are given.
    pub work: String,
    /// The folder for what builders write to standard error, if that is kept.
    pub logs: Option<String>,
    /// The words of the launcher: a program through which each builder is started, and what it is told. There are none
    /// where builders are started by themselves.
    pub launcher: Vec<String>,
    /// The most seconds that a builder may run, if there is a limit: 1 to 31,536,000.
    pub limit: Option<u64>,
    /// Whether after each round of builds the store gives back what nobody holds.
    pub sweep: bool,
    /// Whether it is said on standard error as each builder starts, and how it ended.
    pub verbose: bool,
    /// The files, one for each session, in their order: 1 to 8.
    pub files: Vec<String>,
    ghost few_workers: { (1 ≤ workers) × (workers ≤ most_workers) },
    ghost within_limit: { IfSome limit (λ seconds. (1 ≤ seconds) × (seconds ≤ longest_limit)) } by { Prim.hlevel props },
    ghost few_files: { (1 ≤ length files.items) × (length files.items ≤ most_files) },
}

/// What the program is to do.
#[derive(Drop)]
pub struct Options {
    /// What is done, and with which files.
    pub action: Action,
    /// The limit on each user's charge, in bytes: 1 to 1,073,741,824.
    pub charge: u64,
    ghost in_range: { (1 ≤ charge) × (charge ≤ most_charge) },
}
