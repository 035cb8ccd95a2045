// Tests of sound processing, from kernels to files.
mod additions;
mod chunks;
mod intervals;
mod kernels;
mod long_files;
mod pass_lists;
mod programs;
mod silences;
mod table;
