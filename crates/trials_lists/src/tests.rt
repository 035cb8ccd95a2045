// Tests of lists and of runs over them, including runs with failing stores.
mod calls;
mod consolidations;
mod copies;
mod failing_devices;
mod failing_schedules;
mod flat_cut;
mod media;
mod memory;
mod orders;
mod schedules;
mod stops;
mod tokens;
mod works;
