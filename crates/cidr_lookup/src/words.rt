//! Words of 32 bits, as they lie in an array or are put into one.
ghost use Rattle.std.specs.Prelude.{◌≡◌, ◌≢◌, ℕ, ◌<◌, ◌++◌, ◌∷◌, [], List, Some, length, slice_get, slice_index_or, take, IfErr, OnErr, OnOk};

/// Words that can be read.
pub trait Words {
    /// All of them.
    ghost words: { Self → List ℕ };

    /// How many there are.
    fn len(&self) -> usize
        ensures { result ≡ length (words self.now) };

    /// The word at an index.
    fn word(&self, at: usize) -> u32
        requires { at < length (words self.now) }
        ensures { result ≡ slice_index_or (words self.now) at 0 };
}

impl Words for &[u32] {
    ghost words = { λ slice. slice.now };

    #[inline(always)]
    fn len(&self) -> usize {
        let slice: &[u32] = self;
        slice.len()
    }

    #[inline(always)]
    fn word(&self, at: usize) -> u32 {
        let slice: &[u32] = self;
        slice[at]
    }
}

/// Why no more words are put.
#[derive(Debug, Drop, PartialEq)]
pub(crate) enum Stop {
    /// No place of 31 bits is left.
    TooMany,
    /// The word is not taken.
    Refused,
}

/// Which of the two arrays has no more put into it.
#[derive(Drop)]
pub(crate) enum Stopped {
    First(Stop),
    Words(Stop),
}

/// What words are put into.
pub(crate) trait Sink {
    /// The words that were put.
    ghost put: { Self → List ℕ };

    /// The words that they are compared with, if they are.
    ghost given: { Self → List ℕ };

    /// What is known of a word that is not taken.
    ghost refuses: { Self → ℕ → Type 0 };

    /// How many there are.
    fn len(&self) -> usize
        ensures { result ≡ length (put self.now) };

    /// Puts one more.
    fn push(&mut self, word: u32) -> Result<(), Stop>
        ensures kept { given self.new ≡ given self.old }
        ensures put { OnOk result (put self.new ≡ put self.old ++ word ∷ []) }
        ensures refused { OnErr result ((put self.new ≡ put self.old) × refuses self.new word) }
        ensures only { IfErr result (λ stop. stop ≡ Stop.Refused) };
}

impl Sink for Vec<u32> {
    ghost put = { λ words. words.items };

    ghost given = { λ _. [] };

    ghost refuses = { λ _ _. Unit {0} };

    fn len(&self) -> usize {
        self.as_slice().len()
    }

    fn push(&mut self, word: u32) -> Result<(), Stop> {
        let words: &mut Vec<u32> = self;
        match words.push(word) {
            Ok(()) => Ok(()),
            Err(_) => Err(Stop::Refused),
        }
    }
}

/// Words that are compared with those of an array, from its first on.
#[derive(Drop)]
pub(crate) struct Compared<'a, T> {
    pub(crate) words: &'a T,
    /// How many were put.
    pub(crate) index: usize,
}

impl<T: Words> Sink for Compared<'_, T> {
    ghost put = { λ s. take s.index (T.words s.words.now) };

    ghost given = { λ s. T.words s.words.now };

    ghost refuses = { λ s word. slice_get (T.words s.words.now) (length (take s.index (T.words s.words.now))) ≢ Some word };

    fn len(&self) -> usize {
        self.index.min(self.words.len())
    }

    fn push(&mut self, word: u32) -> Result<(), Stop> {
        if self.index >= self.words.len() {
            return Err(Stop::Refused);
        }
        if self.words.word(self.index) != word {
            return Err(Stop::Refused);
        }
        self.index += 1;
        Ok(())
    }
}
