// `pieces`: reads a function from standard input and lists its pieces, or tells where it is refused.
#![tactic(auto)]

ghost use Rattle.std.specs.Prelude.{length, ◌≤◌, IfOk};
ghost use Rattle.grammar.specs.Function.{reading_of};
ghost use Rattle.pieces_listing.specs.Lines.{printed_of};
ghost use Rattle.buffer.specs.Stored.{Stores};

use std::io;
use std::io::{Read, Stdin, Write};

// The longest text it takes.
const MOST: usize = 65536;

// What is printed of a text, made in a lent buffer. How many bytes it has.
fn show(text: &[u8], words: &mut [u64], directory: &mut [u64], out: &mut [u8]) -> usize
    ensures { Stores (printed_of text.now (reading_of (length words.old) (length directory.old) text.now)) 0 out.old result out.new }
{
    match reading::parse_define(text, words, directory) {
        Ok(n) => pieces_listing::list(directory, n, out),
        Err(r) => pieces_listing::refusal(text, r.question, r.place as u64, out),
    }
}

// What standard input has, as far as there is room for it. How many bytes that is.
fn read_full(input: &mut Stdin, text: &mut [u8]) -> io::Result<usize>
    ensures { IfOk result (λ n. n ≤ length text.new) }
{
    let mut n = 0;
    while n < text.len() {
        let more = input.read(&mut text[n..])?;
        if more == 0 {
            return Ok(n);
        }
        n += more;
    }
    Ok(n)
}

fn main(rt: HostRuntime) -> io::Result<()> {
    let mut text = [0u8; 65537];
    let n = read_full(&mut rt.stdin(), &mut text)?;
    let mut output = rt.stdout();
    if n > MOST {
        return output.write_all(b"too long\n");
    }
    let mut words = [0u64; 8192];
    let mut directory = [0u64; 2048];
    // 682 entries of at most 50 bytes, and the first line
    let mut out = [0u8; 65536];
    let k = show(&text[..n], &mut words, &mut directory, &mut out);
    if k <= 65536 {
        output.write_all(&out[..k])?;
    }
    Ok(())
}
