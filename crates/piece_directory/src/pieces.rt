// Pieces: where one stands, how much it takes, and what reading it gives.
ghost use Rattle.std.specs.Prelude.{◌≡◌, ◌+◌, ◌≤◌};

// Where a piece stands: its number, its place in the text, its first word, and the counter there.
#[derive(Clone, Copy)]
pub struct Spot {
    pub number: usize,
    pub pos: usize,
    pub word: usize,
    pub counter: u64,
}

// How much a piece takes: bytes of text, and words.
#[derive(Clone, Copy)]
pub struct Size {
    pub bytes: usize,
    pub words: usize,
}

impl Spot {
    // Where the next piece stands: behind this one, which takes so much, with the counter that is reached there.
    pub fn behind(self, size: Size, counter: u64) -> Spot
        requires numbers { self.number + 1 ≤ usize.MAX }
        requires bytes { self.pos + size.bytes ≤ usize.MAX }
        requires words { self.word + size.words ≤ usize.MAX }
        ensures number { result.number ≡ self.number + 1 }
        ensures pos { result.pos ≡ self.pos + size.bytes }
        ensures word { result.word ≡ self.word + size.words }
        ensures counter { result.counter ≡ counter }
    {
        Spot {
            number: self.number + 1,
            pos: self.pos + size.bytes,
            word: self.word + size.words,
            counter,
        }
    }
}

// A head or a block, how much it takes and the counter behind it; the tail, its length. A refusal's place is counted from the piece's start.
#[derive(Clone, Copy)]
pub enum Piece {
    Read(Size, u64),
    Tail(usize),
}

// The older records: how many entries the directory has, and how many words are lent.
#[derive(Clone, Copy)]
pub struct Older {
    pub entries: usize,
    pub words: usize,
}

// What an entry says of a piece: where it starts, its first word, how much it takes, and the counter at its start.
#[derive(Clone, Copy)]
pub struct Entry {
    pub start: usize,
    pub first: usize,
    pub size: Size,
    pub counter: u64,
}
