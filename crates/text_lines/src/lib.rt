// The line and the column of a place.
#![tactic(auto)]

ghost use Rattle.std.specs.Prelude.{◌≡◌};
ghost use Rattle.text_lines.specs.Place.{position_of};

// A place as line and column, both from 1.
#[derive(Clone, Copy)]
pub struct Position {
    pub line: usize,
    pub column: usize,
}

pub fn position_of(text: &[u8], place: usize) -> Position
    ensures { result ≡ position_of text.now place }
{
    let mut line = 1;
    let mut column = 1;
    for b in &text[..place.min(text.len())] {
        if *b == b'\n' {
            line += 1;
            column = 1;
        } else {
            column += 1;
        }
    }
    if text.len() < place {
        column += 1;
    }
    Position { line, column }
}
