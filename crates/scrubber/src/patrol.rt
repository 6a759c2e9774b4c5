//! The patrol: one word is scrubbed every so many steps, and the words come in turn.

ghost use Rattle.std.specs.Prelude.{◌≡◌, ◌<◌, ◌/◌, ℕ};
ghost use Rattle.scrubber.specs.Interval.{left_in};
ghost use Rattle.scrubber.specs.PatrolState.{PatrolState};
ghost use Rattle.scrubber.specs.Patrol.{new_patrol, due_at, moved_on, moved_to, next_after, after_steps};

use crate::interval::Interval;
use std::marker::Model;

/// A patrol over the words of a memory.
#[derive(Drop)]
pub struct Patrol {
    every: Interval,
    words: u32,
    next: u32,
}

impl Model for Patrol {
    ghost use Rattle.std.specs.Prelude.{◌<◌};
    ghost use Rattle.scrubber.specs.PatrolState.{PatrolState};

    ghost Value = { PatrolState };

    ghost view = { λ p. record { every = p.every; words = p.words; next = p.next } };

    ghost invariant = { λ p. p.next < p.words };
}

impl Patrol {
    /// A patrol over `words` words, due every `every` steps; with 0 it is never due. Word 0 is the first.
    ///
    /// There is at least one word.
    pub fn new(every: u64, words: u32) -> Patrol
        requires { 0 < words }
        ensures { result ≡ new_patrol every words }
    {
        Patrol {
            every: Interval::new(every),
            words,
            next: 0,
        }
    }

    /// The word to scrub in step `n`: there is one exactly in the last of each `every` steps.
    pub fn due(&self, n: u64) -> Option<u32>
        ensures { result ≡ due_at self.now n }
    {
        let every = self.every.every();
        if every > 0 && n % every == every - 1 {
            Some(self.next)
        } else {
            None
        }
    }

    /// How many steps are left up to that in which a word is due, step `n` and that one counted: 1 where one is due in step
    /// `n`. 0 where none ever is.
    pub fn left(&mut self, n: u64) -> u64
        ensures left { result ≡ left_in self.old.every n }
        ensures stays { self.new ≡ self.old }
    {
        self.every.left(n)
    }

    /// As `due`, without a division where the step that was asked for last is the one before.
    pub fn due_in_turn(&mut self, n: u64) -> Option<u32>
        ensures due { result ≡ due_at self.old n }
        ensures stays { self.new ≡ self.old }
    {
        if self.left(n) == 1 {
            Some(self.next)
        } else {
            None
        }
    }

    /// Moves on to the next word, from the last one to the first.
    pub fn done(&mut self)
        ensures { self.new ≡ moved_on self.old }
    {
        self.next = if self.next + 1 == self.words {
            0
        } else {
            self.next + 1
        };
    }

    /// The word that is scrubbed next.
    pub fn place(&self) -> u32
        ensures next { result ≡ self.now.next }
        ensures within { result < self.now.words }
    {
        self.next
    }

    /// Sets the word that is scrubbed next. There is such a word.
    pub fn set_place(&mut self, p: u32)
        requires { p < self.old.words }
        ensures { self.new ≡ moved_to self.old p }
    {
        self.next = p;
    }
}

/// The words are scrubbed in turn, one every `every` steps: after `n` steps, in each of which a due patrol is done, the
/// next word is `(first + n / every)` modulo the number of words, where `first` was the next word at the beginning.
pub fn scrubs_the_words_in_turn()
    ensures { (p : PatrolState) (n : ℕ) → p.next < p.words → 0 < p.every
        → (after_steps p n).next ≡ next_after p (n / p.every) }
{}
