// The parts of a command, read word by word.
ghost use Rattle.std.specs.Prelude.{◌≡◌, vec_items, OnOk};
ghost use Rattle.script.specs.Hops.{hops_in};
ghost use Rattle.script.specs.Hex.{bytes_in};
ghost use Rattle.script.specs.Parts.{rule_of, measure_of, beat_of, first, first_measure, last_beat, first_number, first_shape, first_request, first_small_number, nothing_more, behind, past, only_number, only_hop, only_strip, request_and_hops};
ghost use Rattle.script.specs.Reads.{said, Parses};

use crate::command::{BeatName, MeasureName};
use crate::hex::push_bytes;
use crate::hop::hop;
use crate::mistake::Mistake;
use crate::number::{decimal, number, small_number};
use crate::words::Words;
use lanes::strip::Strip;
use layouts::turn_rule::TurnRule;
use routes::hop::Hop;
use routes::stream::Request;
use std::alloc::Global;

// The turn rule that a word names. No `TryFrom`: the rule is another crate's type, and these words are the script's.
fn turn_rule(word: &[u8]) -> Result<TurnRule, Mistake>
    ensures { result ≡ rule_of word.now }
{
    match word {
        b"xy" => Ok(TurnRule::Xy),
        b"west-first" => Ok(TurnRule::WestFirst),
        b"north-last" => Ok(TurnRule::NorthLast),
        b"negative-first" => Ok(TurnRule::NegativeFirst),
        _ => Err(Mistake::UnknownRule),
    }
}

// The measure that a word names.
fn measure(word: &[u8]) -> Result<MeasureName, Mistake>
    ensures { result ≡ measure_of word.now }
{
    match word {
        b"total" => Ok(MeasureName::Total),
        b"peak" => Ok(MeasureName::Peak),
        _ => Err(Mistake::UnknownMeasure),
    }
}

// The beat that a word names.
fn beat(word: &[u8]) -> Result<BeatName, Mistake>
    ensures { result ≡ beat_of word.now }
{
    match word {
        b"even" => Ok(BeatName::Even),
        b"uneven" => Ok(BeatName::Uneven),
        _ => Err(Mistake::UnknownBeat),
    }
}

impl<'a> Words<'a> {
    // The next word, where one is wanted.
    fn word(&mut self) -> Result<&'a [u8], Mistake>
        ensures value { said (λ word. word.now) result ≡ first Ok self.old }
        ensures after { self.new ≡ behind self.old }
    {
        self.next().ok_or(Mistake::MissingWord)
    }

    /// That no word is left.
    pub(crate) fn end(&mut self) -> Result<(), Mistake>
        ensures { result ≡ nothing_more self.old }
    {
        match self.next() {
            Some(_) => Err(Mistake::ExtraWord),
            None => Ok(()),
        }
    }

    /// The next word as a number of 16 bits.
    pub(crate) fn number(&mut self) -> Result<u16, Mistake>
        ensures value { result ≡ first_number self.old }
        ensures after { self.new ≡ behind self.old }
    {
        number(self.word()?)
    }

    // The next word as a number of 8 bits.
    fn small_number(&mut self) -> Result<u8, Mistake>
        ensures value { result ≡ first_small_number self.old }
        ensures after { self.new ≡ behind self.old }
    {
        small_number(self.word()?)
    }

    /// The next words as a mesh: its rule, width and height.
    pub(crate) fn shape(&mut self) -> Result<(TurnRule, u16, u16), Mistake>
        ensures value { result ≡ first_shape self.old }
        ensures after { OnOk result (self.new ≡ past 3 self.old) }
    {
        let rule = turn_rule(self.word()?)?;
        let width = self.number()?;
        let height = self.number()?;
        Ok((rule, width, height))
    }

    /// The next words as what a stream asks for: its source, target and demand.
    pub(crate) fn request(&mut self) -> Result<Request, Mistake>
        ensures value { result ≡ first_request self.old }
        ensures after { OnOk result (self.new ≡ past 3 self.old) }
    {
        let source = self.number()?;
        let target = self.number()?;
        let demand = self.number()?;
        Ok(Request {
            source,
            target,
            demand,
        })
    }

    /// The next word as a measure.
    pub(crate) fn measure(&mut self) -> Result<MeasureName, Mistake>
        ensures value { result ≡ first_measure self.old }
        ensures after { self.new ≡ behind self.old }
    {
        measure(self.word()?)
    }

    /// The one word that is left as a beat; with no word left it is even.
    pub(crate) fn last_beat(&mut self) -> Result<BeatName, Mistake>
        ensures { result ≡ last_beat self.old }
    {
        match self.next() {
            None => Ok(BeatName::Even),
            Some(word) => {
                let beat = beat(word)?;
                self.end()?;
                Ok(beat)
            }
        }
    }

    /// The one word that is left as a number of 16 bits.
    pub(crate) fn only_number(&mut self) -> Result<u16, Mistake>
        ensures { result ≡ only_number self.old }
    {
        let number = self.number()?;
        self.end()?;
        Ok(number)
    }

    /// The two words that are left as a link and a lane.
    pub(crate) fn only_hop(&mut self) -> Result<Hop, Mistake>
        ensures { result ≡ only_hop self.old }
    {
        let link = self.number()?;
        let lane = self.small_number()?;
        self.end()?;
        Ok(Hop { link, lane })
    }

    /// The three words that are left as a strip: its fragment, band and row.
    pub(crate) fn only_strip(&mut self) -> Result<Strip, Mistake>
        ensures { result ≡ only_strip self.old }
    {
        let fragment = decimal(self.word()?, u32::MAX)?;
        let band = self.small_number()?;
        let row = self.number()?;
        self.end()?;
        Ok(Strip {
            fragment,
            band,
            row,
        })
    }

    // The words that are left as hops.
    fn hops(&mut self, heap: Global) -> Result<Vec<Hop>, Mistake>
        ensures { Parses vec_items (Unit {0}) (hops_in self.old) result }
    {
        // a loop that pushes, since `try_collect` does not say that it fails where a hop does
        let mut hops = Vec::new(heap);
        for word in self.by_ref() {
            hops.push(hop(word)?)?;
        }
        Ok(hops)
    }

    /// The words that are left as bytes, two digits in base sixteen for each.
    pub(crate) fn bytes(&mut self, heap: Global) -> Result<Vec<u8>, Mistake>
        ensures { Parses vec_items (Unit {0}) (bytes_in self.old) result }
    {
        let mut bytes = Vec::new(heap);
        for word in self.by_ref() {
            push_bytes(&mut bytes, word)?;
        }
        Ok(bytes)
    }

    /// The words that are left as what a stream asks for, with the hops of a route.
    pub(crate) fn request_and_hops(&mut self, heap: Global) -> Result<(Request, Vec<Hop>), Mistake>
        ensures { Parses (λ a. (a.0, vec_items a.1)) (Unit {0}) (request_and_hops self.old) result }
    {
        let request = self.request()?;
        Ok((request, self.hops(heap)?))
    }
}
