// The set of index numbers that the entries of a project name. Equal to a search through the entries.
ghost use Rattle.std.specs.Prelude.{◌≡◌, ◌<◌, ℕ, IfOk, length, slice_index_or, false};
ghost use Rattle.list_terms.specs.Binding.{is_used};

use sound_terms::Event;
use std::alloc::{AllocError, Global};
use std::marker::Model;

/// The number of flags. A list has no higher index numbers.
const FLAGS: usize = 32_768;

/// Returns `count` cleared flags.
fn cleared_flags(alloc: Global, count: usize) -> Result<Vec<bool>, AllocError>
    ensures { IfOk result (λ flags. (n : ℕ) → slice_index_or flags.items n false ≡ false) }
{
    vec![in alloc; false; count]
}

/// The set of index numbers that some entries name, as one flag per number.
#[derive(Drop)]
pub struct UsedNumbers<'a> {
    events: &'a [Event],
    flags: Vec<bool>,
    ghost flagged: { (n : ℕ) → n < length flags.items → slice_index_or flags.items n false ≡ is_used events.now n },
}

impl<'a> Model for UsedNumbers<'a> {
    ghost use Rattle.std.specs.Prelude.{List};
    ghost use Rattle.sound_terms.specs.declared.Event.{Event};

    ghost Value = { List Event };

    ghost view = { λ used. used.events.now };
}

impl<'a> UsedNumbers<'a> {
    /// Collects the numbers that the entries name. If there is no memory for flags, `contains` searches the entries
    /// instead.
    pub fn new(alloc: Global, events: &'a [Event]) -> Self
        ensures { result ≡ events.now }
    {
        let mut flags = match cleared_flags(alloc, FLAGS) {
            Ok(flags) => flags,
            Err(_) => Vec::new(alloc),
        };
        for event in events {
            let number = event.index as usize;
            if number < flags.len() {
                flags[number] = true;
            }
        }
        UsedNumbers { events, flags }
    }

    /// Returns whether some entry names the number. Numbers without a flag are found by a search through the
    /// entries.
    pub fn contains(&self, number: u32) -> bool
        ensures { result ≡ is_used self.now number }
    {
        match self.flags.get(number as usize) {
            Some(used) => *used,
            None => self.events.iter().any(|event| event.index == number),
        }
    }
}
