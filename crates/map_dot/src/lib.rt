// The map of a function's blocks, as a DOT digraph (02: M-109), from its records and its text. Over any records whatever.
#![tactic(auto)]

pub mod quoted; // quoted.rt: the names of blocks and targets, in quotes
pub mod targets; // targets.rt: the edges of one block

ghost use Rattle.std.specs.Prelude.{◌≡◌, ◌++◌, ◌-◌, length, take, drop, replicate};
ghost use Rattle.records.specs.Limits.{entry_words};
ghost use Rattle.buffer.specs.Stored.{Stores};
ghost use Rattle.map_spec.specs.Drawing.{node_line, lines_of};
ghost use Rattle.map_spec.specs.Blocks.{block_name, behind_node, blocks_from, map_in};
ghost use Rattle.map_spec.specs.Buffer.{block_map};
ghost use Rattle.map_dot.specs.Views.{sort_of_lines, drawn_by};

use buffer::{PAST, put_all};
use quoted::Label;

// The line of a node.
fn put_node(out: &mut [u8], at: usize, piece: &[u8], label: Label) -> usize
    ensures { Stores (node_line (block_name piece.now label.number label.word)) at out.old result out.new }
{
    let k = quoted::put_block(out, at, piece, label);
    put_all(out, k, b"\n")
}

// The node lines of n blocks, or their edge lines: the blocks stand behind the head, in words and directory. Once the text is too long for any
// buffer nothing is looked at any more.
// `edges` is a flag and no closure: the passes differ in one call, and `sort_of_lines` picks their definition by it.
fn put_lines(
    out: &mut [u8],
    at: usize,
    text: &[u8],
    words: &[u64],
    directory: &[u64],
    n: usize,
    edges: bool,
) -> usize
    ensures { Stores (lines_of (sort_of_lines edges) (blocks_from n text.now (behind_node words.now) (drop entry_words directory.now))) at out.old result out.new }
{
    let mut k = at;
    let mut w = record_blocks::behind_node(words, 0);
    for i in 0..n {
        if directory.len() / records::ENTRY_WORDS <= i + 1 {
            return k;
        }
        if k == PAST {
            return k;
        }
        let own = record_blocks::node_at(words, w);
        let piece = record_blocks::piece_text(text, directory[(i + 1) * records::ENTRY_WORDS]);
        let label = Label {
            number: directory[(i + 1) * records::ENTRY_WORDS + 2],
            word: record_steps::word_at(own, 1),
        };
        if edges {
            k = targets::put_edges(out, k, piece, label, own);
        } else {
            k = put_node(out, k, piece, label);
        }
        w = record_blocks::behind_node(words, w);
    }
    k
}

// Zeros from a place on.
fn clear(out: &mut [u8], from: usize)
    ensures { out.new ≡ take from out.old ++ replicate (length out.old - from) 0 }
{
    if from < out.len() {
        out[from..].fill(0);
    }
}

// The whole text, as far as there is room; the place behind it.
fn put_map(out: &mut [u8], text: &[u8], words: &[u64], directory: &[u64], entries: usize) -> usize
    ensures { Stores (map_in entries text.now words.now directory.now) 0 out.old result out.new }
{
    // the first entry is the head's, the last the tail's
    let n = entries.saturating_sub(2);
    let k = put_all(out, 0, b"digraph {\n");
    let k1 = put_lines(out, k, text, words, directory, n, false);
    let k2 = put_lines(out, k1, text, words, directory, n, true);
    put_all(out, k2, b"}\n")
}

// How many bytes the map in a lent buffer has, with zeros behind it; where it is too long (27), none, and zeros alone.
pub fn block_map(
    text: &[u8],
    words: &[u64],
    directory: &[u64],
    entries: usize,
    out: &mut [u8],
) -> Option<usize>
    ensures { drawn_by result out.new ≡ block_map (length out.old) entries text.now words.now directory.now }
{
    let n = put_map(out, text, words, directory, entries);
    let within = n <= records::TEXT_LIMIT;
    let fits = n <= out.len();
    if within && fits {
        clear(out, n);
        return Some(n);
    }
    clear(out, 0);
    None
}
