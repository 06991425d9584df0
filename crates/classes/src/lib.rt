//! The output classes of derivations, and their ranks, and what a desk knows of them (Dolstra 2006, chapter 6).
#![tactic(auto)]

mod admission_input;
mod admissions;
mod admitted;
mod admitted_text;
mod file_path;
mod inputs;
mod known;

pub use admission_input::AdmissionInput;
pub use admissions::Admissions;
pub use admitted::Admitted;
pub use file_path::path_of_text;
pub use inputs::input_classes;
pub use known::Known;
pub use storepath::Class;
