// "the text of a name": a part of the piece's text that the caller lends, or none past it.
ghost use Rattle.std.specs.Prelude.{◌≡◌, length};
ghost use Rattle.program.specs.Class.{inside};
ghost use Rattle.trees.specs.Steps.{part_of, name_of, is_named};
ghost use Rattle.record_steps.specs.Views.{part_in, text_of};

// A part of the piece: where it starts and how many bytes it has.
#[derive(Clone, Copy)]
pub struct Text {
    pub start: usize,
    pub length: usize,
}

// The part that a name's word gives; zero is no name.
pub fn part(piece: &[u8], name: u64) -> Option<Text>
    ensures { part_in result ≡ part_of (length piece.now) name }
{
    if name == 0 {
        return None;
    }
    let start = (name / records::HALF) as usize;
    let length = (name % records::HALF) as usize;
    if start + length <= piece.len() {
        return Some(Text { start, length });
    }
    None
}

// That part as a slice; of no name it is empty.
pub fn text_in(piece: &[u8], name: u64) -> &[u8]
    ensures { result.now ≡ text_of piece.now name }
{
    match part(piece, name) {
        Some(text) => {
            let end = text.start + text.length;
            &piece[text.start..end]
        }
        None => &[],
    }
}

// Does a kind stand from one to another?
fn between(first: u8, last: u8, kind: u8) -> bool
    ensures { result ≡ inside first last kind }
{
    first <= kind && kind <= last
}

// Is the kind's first payload word a name?
fn is_named(kind: u8) -> bool
    ensures { result ≡ is_named kind }
{
    kind == records::K_NAMED
        || kind == records::K_LOCAL
        || kind == records::K_GLOBAL
        || kind == records::K_CSTR
        || between(records::K_BIN, records::K_FENCE, kind)
        || between(records::K_HEAD, records::K_NAME, kind)
}

// The name of the node at a place.
pub fn name(words: &[u64], at: usize, piece: &[u8]) -> Option<Text>
    ensures { part_in result ≡ name_of words.now at (length piece.now) }
{
    let header = super::word_at(words, at);
    if !super::is_header(header) {
        return None;
    }
    if !is_named(super::kind_in(header)) {
        return None;
    }
    part(piece, super::word_at(words, at + 1))
}
