// Tests of stores, and of marks in them.
mod calls;
mod crashes;
mod folders;
mod marks;
mod memory;
