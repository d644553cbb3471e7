//! Guesses where the next record is: mostly it comes after the same record as before. Only speed depends on them.

use mdns_message::Want;
use std::alloc::Global;

/// The places of records and record sets, as they were found before. A place that isn't known is any number.
#[derive(Drop)]
pub struct Guesses {
    // Of the record at each place.
    guesses: Vec<Guess>,

    // The place of the record that was found last.
    last: usize,
}

/// What was found of a record at a place before.
#[derive(Clone, Copy)]
struct Guess {
    // The place of its record set.
    set: u32,

    // The place of the record that came next.
    next: u32,
}

/// Nothing is known of the record.
const NO_GUESS: Guess = Guess {
    set: u32::MAX,
    next: u32::MAX,
};

impl Guesses {
    /// Makes guesses of nothing. It allocates nothing yet.
    pub fn new(alloc: Global) -> Guesses {
        Guesses {
            guesses: Vec::new(alloc),
            last: 0,
        }
    }

    /// Returns where the next record may be.
    pub fn record(&self) -> usize {
        self.guess().next as usize
    }

    /// Returns where the set of the record that was found last may be.
    pub fn set(&self) -> usize {
        self.guess().set as usize
    }

    /// Notes where the next record was found.
    pub fn found_record(&mut self, found: &Result<usize, Want>) {
        let Ok(place) = *found else {
            return;
        };
        if let Some(guess) = self.guesses.get_mut(self.last) {
            guess.next = number_of(place);
        }
        if place == self.guesses.len() {
            // Without memory the record is searched for.
            let _ = self.guesses.push(NO_GUESS);
        }
        self.last = place;
    }

    /// Notes where the set of the record that was found last was found.
    pub fn found_set(&mut self, found: &Result<usize, Want>) {
        let Ok(place) = *found else {
            return;
        };
        if let Some(guess) = self.guesses.get_mut(self.last) {
            guess.set = number_of(place);
        }
    }

    // Returns what is known of the record that was found last.
    fn guess(&self) -> Guess {
        match self.guesses.get(self.last) {
            Some(guess) => *guess,
            None => NO_GUESS,
        }
    }
}

// Returns a place as a number, the greatest for a place that is too large.
fn number_of(place: usize) -> u32 {
    u32::try_from(place).unwrap_or(u32::MAX)
}
