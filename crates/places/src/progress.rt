// The line on a terminal that shows how far a command has come.
ghost use Rattle.std.specs.Prelude.{◌≤◌};

use console::Console;
use findings::Shown;
use std::cell::{Cell, RefCell};
use std::fmt::Display;
use std::time::{Clock, Duration, Instant};

/// How many bytes of a source's name are shown.
const NAME_BYTES: usize = 40;

/// Shows how far a command has come. It is shared by the sources that the command reads and by its work.
pub trait Progress {
    /// Whether reads of sources are shown: on a terminal, until the work has begun or the command has ended.
    fn shows_reads(&self) -> bool;

    /// A source of so many bytes was read up to this byte.
    fn read(&self, name: &str, position: u64, whole: u64);

    /// No source is shown from now on, and what is shown is taken off.
    fn end_reads(&self);

    /// So many frames of so many are there, which `how` may say more of.
    fn reached(&self, done: u64, whole: u64, how: &str);

    /// Takes off what is shown.
    fn clear(&self);
}

/// A line on a terminal, written over again and again: none in the first second, then ten a second at most.
#[derive(Drop)]
pub struct ProgressLine<'a, C: Clock, O: Console + Drop> {
    clock: &'a C,
    console: RefCell<O>,
    /// When the line may be written; never where there is no time.
    next: Cell<Option<Instant>>,
    is_shown: Cell<bool>,
    /// What is read isn't shown any more.
    has_read: Cell<bool>,
}

impl<'a, C: Clock, O: Console + Drop> ProgressLine<'a, C, O> {
    /// The line of a command that begins now. It is never written where the console is no terminal.
    pub fn new(clock: &'a C, console: O, is_terminal: bool) -> Self {
        let next = if is_terminal {
            time_after(clock, Duration::from_secs(1))
        } else {
            None
        };
        ProgressLine {
            clock,
            console: RefCell::new(console),
            next: Cell::new(next),
            is_shown: Cell::new(false),
            has_read: Cell::new(false),
        }
    }

    /// Whether the line may be written now.
    fn is_due(&self) -> bool {
        let Some(next) = self.next.get() else {
            return false;
        };
        match Instant::now(self.clock) {
            Ok(now) => next <= now,
            Err(_) => false,
        }
    }

    /// Writes so many of so many of what the words say, over all of the last line.
    fn show<D: Display + Drop>(&self, done: u64, whole: u64, what: D) {
        if let Ok(mut console) = self.console.try_borrow_mut() {
            let percent = percent_of(done, whole);
            console.print(format_args!("\r{percent} %: {done} of {whole} {what}\x1b[K"));
            self.is_shown.set(true);
        }
        let next = time_after(self.clock, Duration::from_millis(100));
        self.next.set(next);
    }
}

impl<C: Clock, O: Console + Drop> Progress for ProgressLine<'_, C, O> {
    fn shows_reads(&self) -> bool {
        !self.has_read.get() && self.next.get().is_some()
    }

    fn read(&self, name: &str, position: u64, whole: u64) {
        if self.shows_reads() && self.is_due() {
            let name = Shown(name.as_bytes(), NAME_BYTES);
            self.show(position, whole, format_args!("bytes of {name}"));
        }
    }

    fn end_reads(&self) {
        self.has_read.set(true);
        self.clear();
    }

    fn reached(&self, done: u64, whole: u64, how: &str) {
        self.has_read.set(true);
        if self.is_due() {
            self.show(done, whole, format_args!("frames{how}"));
        }
    }

    /// Empties the line, and leaves the cursor where it begins.
    fn clear(&self) {
        if !self.is_shown.get() {
            return;
        }
        if let Ok(mut console) = self.console.try_borrow_mut() {
            console.print("\r\x1b[K");
            self.is_shown.set(false);
        }
    }
}

/// The time after so long, where the clock can tell it.
fn time_after<C: Clock>(clock: &C, pause: Duration) -> Option<Instant> {
    Instant::now(clock).ok()?.checked_add(pause)
}

/// How many hundredths of the whole are done, rounded down.
fn percent_of(done: u64, whole: u64) -> u64
    ensures { result ≤ 100 }
{
    match done.min(whole).saturating_mul(100).checked_div(whole) {
        Some(percent) => percent.min(100),
        None => 100,
    }
}
