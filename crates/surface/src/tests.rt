// Tests of the program as a function, and of its parts.
mod boards;
mod parts;
mod rows;
