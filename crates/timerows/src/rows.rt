// The rows of accepted words as edges: row i goes from its tail to its head, and is as long as its c, less a small
// amount if it is strict.
ghost use Rattle.std.specs.Prelude.{◌≡◌, ◌<◌};
ghost use Rattle.rules.specs.Problem.{m_of, n_of};
ghost use Rattle.rules.specs.Times.Words.{length_word, strict_word, time_edges};
ghost use Rattle.lengths.specs.Lengths.{length_of, key_of};
ghost use Rattle.timerows.specs.Judged.{Fine};

use crate::word_of;
use lengths::Length;
use words::count_at;

/// Words that refusals 11 to 16 leave.
#[derive(Clone, Copy)]
pub struct TimeRows<'a> {
    pub words: &'a [i32],
    pub ghost fine: { Fine words.now },
}

impl TimeRows<'_> {
    /// How many vertices there are.
    pub fn n(&self) -> usize
        ensures { result ≡ n_of self.now.words.now }
    {
        count_at(self.words, 0)
    }

    /// How many rows there are.
    pub fn m(&self) -> usize
        ensures { result ≡ m_of self.now.words.now }
    {
        count_at(self.words, 1)
    }

    pub fn tail(&self, i: usize) -> usize
        requires { i < m_of self.now.words.now }
        ensures { result ≡ (time_edges self.now.words.now).tail i }
    {
        count_at(self.words, 2 + 4 * i)
    }

    pub fn head(&self, i: usize) -> usize
        requires { i < m_of self.now.words.now }
        ensures { result ≡ (time_edges self.now.words.now).head i }
    {
        count_at(self.words, 3 + 4 * i)
    }

    // The strict word of a row, and its c.
    pub fn strict(&self, i: usize) -> i32
        requires { i < m_of self.now.words.now }
        ensures { result ≡ strict_word self.now.words.now i }
    {
        word_of(self.words, i, 2)
    }

    pub fn span(&self, i: usize) -> i32
        requires { i < m_of self.now.words.now }
        ensures { result ≡ length_word self.now.words.now i }
    {
        word_of(self.words, i, 3)
    }

    pub fn size(&self, i: usize) -> Length
        requires { i < m_of self.now.words.now }
        ensures { length_of result ≡ key_of ((time_edges self.now.words.now).size i) }
    {
        Length::of(self.span(i), self.strict(i))
    }
}
