//! Definitions shared by the contracts of reports. Contains no code.
#![tactic(auto)]
