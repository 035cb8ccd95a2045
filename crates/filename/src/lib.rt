//! Names of files directly inside a folder.
#![tactic(auto)]

mod name;

pub use name::{FileName, is_file_name, require_file_name};
