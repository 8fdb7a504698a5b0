//! The words of a command line.
ghost use Rattle.std.specs.Prelude.{IsTrue, List, OnErr, OnOk, Some, [], length, map, slice_get, string_bytes, vec_len};
ghost use Rattle.std.specs.Prelude.{ℕ, ◌++◌, ◌<◌, ◌↔◌, ◌∷◌, ◌≡◌, ◌≤◌};
ghost use Rattle.weave_base.specs.Words.{most_words};

use crate::Memory;
use std::alloc::Global;
use std::marker::Model;

/// The words of a command line, without the program's name. Contracts see the list of their texts, each as its bytes.
#[derive(Drop)]
pub struct Words {
    words: Vec<String>,
}

impl Model for Words {
    ghost Value = { List (List ℕ) };

    ghost view = { λ w. map string_bytes w.words.items };

    ghost invariant = { λ w. vec_len w.words ≤ most_words };
}

impl Words {
    /// No words. `push` takes its memory from this allocator.
    pub fn make(alloc: Global) -> Words
        ensures { result ≡ [] }
    {
        Words {
            words: Vec::new(alloc),
        }
    }

    /// Appends a copy of the word. On `Memory` the words are unchanged.
    pub fn push(&mut self, w: &str) -> Result<(), Memory>
        requires { length self.old < most_words }
        ensures ok { OnOk result (self.new ≡ self.old ++ w.now ∷ []) }
        ensures err { OnErr result (self.new ≡ self.old) }
    {
        let word = String::from_str(*self.words.allocator(), w)?;
        match self.words.push(word) {
            Ok(()) => Ok(()),
            Err(_) => Err(Memory),
        }
    }

    /// How many words there are.
    pub fn len(&self) -> u32
        ensures count { result ≡ length self.now }
        ensures most { result ≤ most_words }
    {
        self.words.len() as u32
    }

    /// Whether there is no word.
    pub fn is_empty(&self) -> bool
        ensures { IsTrue result ↔ (self.now ≡ []) }
    {
        self.words.is_empty()
    }

    /// The word at a place, counted from 0.
    pub fn get(&self, i: u32) -> &str
        requires { i < length self.now }
        ensures { slice_get self.now i ≡ Some result.now }
    {
        self.words[i as usize].as_str()
    }
}
