// The words of a line, one after another.
ghost use Rattle.std.specs.Prelude.{◌≡◌};
ghost use Rattle.std.specs.Iterator.{YieldsFirstRef, item_count};
ghost use Rattle.script.specs.Words.{words_of};

use crate::bytes::Kind;
use std::marker::Model;

/// The words that are left of a line.
#[derive(Drop)]
pub(crate) struct Words<'a> {
    rest: &'a [u8],
}

impl<'a> Model for Words<'a> {
    ghost use Rattle.std.specs.Prelude.{ℕ, List};
    ghost use Rattle.script.specs.Words.{words_of};

    ghost Value = { List (List ℕ) };

    ghost view = { λ words. words_of words.rest.now };
}

impl<'a> Words<'a> {
    /// The words of a whole line.
    pub(crate) fn new(line: &'a [u8]) -> Words<'a>
        ensures { result ≡ words_of line.now }
    {
        Words { rest: line }
    }
}

impl<'a> Iterator for Words<'a> {
    type Item = &'a [u8];

    ghost next_gives = { YieldsFirstRef (λ words. words) };

    ghost remaining = { item_count (λ words. words) };

    // The next word, if the line has one more ahead of its end or its comment.
    #[tactic(auto, using(crate::proofs::WordCuts::next_word))]
    fn next(&mut self) -> Option<&'a [u8]> {
        let (_, rest) = self.rest.split_at(Kind::Blank.run(self.rest));
        let (word, rest) = rest.split_at(Kind::Letter.run(rest));
        self.rest = rest;
        if word.is_empty() { None } else { Some(word) }
    }
}
