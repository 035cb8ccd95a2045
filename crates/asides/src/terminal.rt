// The consoles and displays of a command.
/// Standard output, standard error, the progress display and the additional information on refusals. Functions that
/// borrow a terminal don't replace its consoles.
#[derive(Drop)]
pub struct Terminal<'o, 'e, O, E, M: Drop, A: Drop> {
    pub out: &'o mut O,
    pub err: &'e mut E,
    pub meter: M,
    pub asides: A,
}
