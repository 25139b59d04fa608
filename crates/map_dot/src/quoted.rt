// The names of blocks and targets, as they stand in the map: quoted, escapes undone, and escaped anew.
ghost use Rattle.std.specs.Prelude.{◌≡◌, ◌%◌};
ghost use Rattle.program.specs.Class.{HEX};
ghost use Rattle.grammar.specs.Lexer.{spelled, unescape};
ghost use Rattle.lexer_names.specs.Names.{raw_word};
ghost use Rattle.buffer.specs.Stored.{Stores};
ghost use Rattle.buffer.specs.Decimal.{decimal};
ghost use Rattle.map_spec.specs.Drawing.{hex_digit, is_plain, letter, letters, in_quotes};
ghost use Rattle.map_spec.specs.Blocks.{name_in, block_name};

use buffer::{put, put_all, put_decimal};

// What a block is named by: its entry's counter, and its label's word.
#[derive(Clone, Copy)]
pub struct Label {
    pub number: u64,
    pub word: u64,
}

// The bytes that stand as they are: from space to `~`, but no quote and no backslash.
const FIRST: u16 = b' ' as u16;

const LAST: u16 = b'~' as u16;

const QUOTE: u16 = b'"' as u16;

const BACKSLASH: u16 = b'\\' as u16;

#[tactic(auto, unfolding(map_spec::specs::Drawing::is_plain))]
fn is_plain(x: u16) -> bool
    ensures { result ≡ is_plain x }
{
    FIRST <= x && x <= LAST && x != QUOTE && x != BACKSLASH
}

// A capital hexadecimal digit, the last of a number.
#[tactic(auto, unfolding(map_spec::specs::Drawing::hex_digit))]
fn last_digit(x: u16) -> u8
    ensures { result ≡ hex_digit (x % HEX) }
{
    let d = (x % 16) as u8;
    if d < 10 { b'0' + d } else { b'A' + (d - 10) }
}

// A letter of a name; the place behind it.
fn put_letter(out: &mut [u8], at: usize, x: u16) -> usize
    ensures { Stores (letter x) at out.old result out.new }
{
    if is_plain(x) {
        return put(out, at, (x % 256) as u8);
    }
    let k = put_all(out, at, b"\\\\");
    let k1 = put(out, k, last_digit(x / 16));
    put(out, k1, last_digit(x))
}

// The letters of a name without quotes.
fn put_letters(out: &mut [u8], at: usize, raw: &[u8]) -> usize
    ensures { Stores (letters raw.now) at out.old result out.new }
{
    let mut k = at;
    for x in raw {
        k = put_letter(out, k, u16::from(*x));
    }
    k
}

// The letters of what stands between quotes, escapes undone.
fn put_unescaped(out: &mut [u8], at: usize, inner: &[u8]) -> usize
    ensures { Stores (letters (unescape 0 0 inner.now)) at out.old result out.new }
{
    let mut k = at;
    let mut i = 0;
    while let Some(x) = lexer_spelling::next_letter(inner, true, i) {
        k = put_letter(out, k, x.b);
        i = x.next;
    }
    k
}

// The letters of a name that stands so in its text.
fn put_raw(out: &mut [u8], at: usize, raw: &[u8]) -> usize
    ensures { Stores (letters (spelled (raw_word raw.now))) at out.old result out.new }
{
    if lexer_spelling::is_quoted(raw) {
        return put_unescaped(out, at, lexer_spelling::between(raw));
    }
    put_letters(out, at, raw)
}

// The name that a word gives in a piece, in quotes.
pub fn put_name(out: &mut [u8], at: usize, piece: &[u8], word: u64) -> usize
    ensures { Stores (in_quotes (name_in piece.now word)) at out.old result out.new }
{
    let k = put_all(out, at, b"\"");
    let k1 = put_raw(out, k, record_steps::names::text_in(piece, word));
    put_all(out, k1, b"\"")
}

// A number, in quotes.
fn put_number(out: &mut [u8], at: usize, number: u64) -> usize
    ensures { Stores (in_quotes (decimal number)) at out.old result out.new }
{
    let k = put_all(out, at, b"\"");
    let k1 = put_decimal(out, k, number);
    put_all(out, k1, b"\"")
}

// The name of a block, in quotes: its label, or its number.
pub fn put_block(out: &mut [u8], at: usize, piece: &[u8], label: Label) -> usize
    ensures { Stores (in_quotes (block_name piece.now label.number label.word)) at out.old result out.new }
{
    if label.word == 0 {
        return put_number(out, at, label.number);
    }
    put_name(out, at, piece, label.word)
}
