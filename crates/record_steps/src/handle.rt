// A handle: it holds the lent words and a place in them. The preview screen steps with it from node to node.
// Its methods are thin: the work is done on the words and the place by the functions of lib.rt and names.rt.
ghost use Rattle.std.specs.Prelude.{◌≡◌, length};
ghost use Rattle.trees.specs.Steps.{child_of, next_of, name_of};
ghost use Rattle.record_steps.specs.Views.{part_in};
ghost use Rattle.record_steps.specs.Moves.{Moves, place_or};

use super::names::Text;

#[derive(Clone, Copy)]
pub struct Handle<'a> {
    pub words: &'a [u64],
    pub at: usize,
}

impl<'a> Handle<'a> {
    // A handle at a place of the words.
    pub fn new(words: &'a [u64], at: usize) -> Handle<'a>
        ensures { (result.words ≡ words.entry) × (result.at ≡ at) }
    {
        Handle { words, at }
    }

    // To the first child; is there one? Where there is none, the handle stays.
    pub fn child(&mut self) -> bool
        ensures { Moves (child_of self.old.words.now self.old.at) self.old result self.new }
    {
        let at = self.at;
        let to = super::child_or_stay(self.words, at);
        self.at = to;
        to != at
    }

    // To the next node below an end, that of a given parent; is there one? Where there is none, the handle stays.
    pub fn next(&mut self, end: usize) -> bool
        ensures { Moves (next_of self.old.words.now self.old.at end) self.old result self.new }
    {
        let at = self.at;
        let to = super::next_or_stay(self.words, at, end);
        self.at = to;
        to != at
    }

    // The name of the node where the handle stands, as a part of the piece's text.
    pub fn name(self, piece: &[u8]) -> Option<Text>
        ensures { part_in result ≡ name_of self.entry.words.now self.entry.at (length piece.now) }
    {
        super::names::name(self.words, self.at, piece)
    }
}

// The same from words and a place, by way of a handle.
pub fn name_at(words: &[u64], at: usize, piece: &[u8]) -> Option<Text>
    ensures { part_in result ≡ name_of words.now at (length piece.now) }
{
    Handle::new(words, at).name(piece)
}

// The place that a step to the child reaches, or the place itself: a handle in a local is lent to the step.
pub fn child_at(words: &[u64], at: usize) -> usize
    ensures { result ≡ place_or at (child_of words.now at) }
{
    let mut h = Handle::new(words, at);
    h.child();
    h.at
}
