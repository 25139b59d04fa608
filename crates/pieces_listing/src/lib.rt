// What the programs print: a listing of pieces, a refusal, made in a lent buffer.
#![tactic(auto)]

ghost use Rattle.std.specs.Prelude.{◌≡◌, ◌/◌, length, min};
ghost use Rattle.records.specs.Limits.{entry_words};
ghost use Rattle.buffer.specs.Stored.{Stores};
ghost use Rattle.pieces_listing.specs.Lines.{field, piece_line, piece_lines, words_end, listing, refusal_line};

use buffer::{put_all, put_decimal};

// A space and a number.
fn put_field(out: &mut [u8], at: usize, n: u64) -> usize
    ensures { Stores (field n) at out.old result out.new }
{
    let k = put_all(out, at, b" ");
    put_decimal(out, k, n)
}

// A piece: its number, and its entry's first two words.
fn put_piece(out: &mut [u8], at: usize, i: u64, x: u64, y: u64) -> usize
    ensures { Stores (piece_line i x y) at out.old result out.new }
{
    let k = put_decimal(out, at, i);
    let k1 = put_field(out, k, x / records::HALF);
    let k2 = put_field(out, k1, x % records::HALF);
    let k3 = put_field(out, k2, y / records::HALF);
    let k4 = put_field(out, k3, y % records::HALF);
    put_all(out, k4, b"\n")
}

// How many of n entries a directory has.
fn entries_there(directory: &[u64], n: usize) -> usize
    ensures { result ≡ min n (length directory.now / entry_words) }
{
    n.min(directory.len() / records::ENTRY_WORDS)
}

// A line for each of n pieces, as far as the directory has them.
fn put_pieces(out: &mut [u8], at: usize, directory: &[u64], n: usize) -> usize
    ensures { Stores (piece_lines 0 n directory.now) at out.old result out.new }
{
    let mut k = at;
    for i in 0..entries_there(directory, n) {
        let x = directory[i * records::ENTRY_WORDS];
        let y = directory[i * records::ENTRY_WORDS + 1];
        k = put_piece(out, k, i as u64, x, y);
    }
    k
}

// Where the words of n pieces end: each piece begins where the last ended.
fn words_end(directory: &[u64], n: usize) -> u64
    ensures { result ≡ words_end 0 n directory.now }
{
    let mut end: u64 = 0;
    for i in 0..entries_there(directory, n) {
        let y = directory[i * records::ENTRY_WORDS + 1];
        end = y / records::HALF + y % records::HALF;
    }
    end
}

// `pieces N words M`, then a line for each piece: its number, start, length, first word, words. How many bytes it has, and these in the
// buffer, as far as it reaches.
pub fn list(directory: &[u64], n: usize, out: &mut [u8]) -> usize
    ensures { Stores (listing n directory.now) 0 out.old result out.new }
{
    let end = words_end(directory, n);
    let k = put_all(out, 0, b"pieces ");
    let k1 = put_decimal(out, k, n as u64);
    let k2 = put_all(out, k1, b" words ");
    let k3 = put_decimal(out, k2, end);
    let k4 = put_all(out, k3, b"\n");
    put_pieces(out, k4, directory, n)
}

// `refused N place P line L column C`, likewise.
pub fn refusal(text: &[u8], q: u64, p: u64, out: &mut [u8]) -> usize
    ensures { Stores (refusal_line text.now q p) 0 out.old result out.new }
{
    let at = text_lines::position_of(text, p as usize);
    let k = put_all(out, 0, b"refused ");
    let k1 = put_decimal(out, k, q);
    let k2 = put_all(out, k1, b" place ");
    let k3 = put_decimal(out, k2, p);
    let k4 = put_all(out, k3, b" line ");
    let k5 = put_decimal(out, k4, at.line as u64);
    let k6 = put_all(out, k5, b" column ");
    let k7 = put_decimal(out, k6, at.column as u64);
    put_all(out, k7, b"\n")
}
