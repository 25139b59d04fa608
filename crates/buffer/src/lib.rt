// Texts that are written: bytes and numbers in a lent buffer, as far as it reaches, and never more than a written text may have (27).
#![tactic(auto)]

ghost use Rattle.std.specs.Prelude.{◌≡◌};
ghost use Rattle.buffer.specs.Stored.{onward, with_byte, Stores};
ghost use Rattle.buffer.specs.Decimal.{decimal};

// A place past all that a written text may have; what is written from there on is not stored.
pub const PAST: usize = records::TEXT_LIMIT + 1;

// A byte, where there is room; the next place.
pub fn put(out: &mut [u8], at: usize, b: u8) -> usize
    ensures { (result ≡ onward at) × (out.new ≡ with_byte at b out.old) }
{
    if records::TEXT_LIMIT <= at {
        return PAST;
    }
    if at < out.len() {
        out[at] = b;
    }
    at + 1
}

// Bytes; the place behind them.
pub fn put_all(out: &mut [u8], at: usize, bytes: &[u8]) -> usize
    ensures { Stores bytes.now at out.old result out.new }
{
    let mut k = at;
    for b in bytes {
        k = put(out, k, *b);
    }
    k
}

// A number in decimal; the place behind it.
pub fn put_decimal(out: &mut [u8], at: usize, n: u64) -> usize
    ensures { Stores (decimal n) at out.old result out.new }
{
    let mut digits = itoa::Buffer::new();
    put_all(out, at, digits.format(n).as_bytes())
}
