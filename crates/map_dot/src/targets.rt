// The edges of one block, whose words are lent alone: its terminator is its last child, and the names among that one's children are the targets.
ghost use Rattle.std.specs.Prelude.{◌≡◌};
ghost use Rattle.std.proofs.Math.Option.{some};
ghost use Rattle.buffer.specs.Stored.{Stores};
ghost use Rattle.map_spec.specs.Drawing.{edge_line, edges_to};
ghost use Rattle.map_spec.specs.Blocks.{name_in, block_name, branches, name_here, names_from, last_from, targets_at, targets_in};

use crate::quoted;
use crate::quoted::Label;
use buffer::{PAST, put_all};

// The terminators that name targets.
#[tactic(auto, unfolding(map_spec::specs::Blocks::branches))]
fn names_targets(kind: u8) -> bool
    ensures { result ≡ branches kind }
{
    kind == records::K_BR || kind == records::K_SWITCH
}

// The last node from a place on, n steps on at most.
fn last(own: &[u64], first: usize, n: u16) -> usize
    ensures { result ≡ last_from n own.now first }
{
    let mut at = first;
    for _i in 0..n {
        match record_steps::next(own, at, own.len()) {
            Some(to) => at = to,
            None => return at,
        }
    }
    at
}

// The line of an edge, to the name that a word gives.
fn put_edge(out: &mut [u8], at: usize, piece: &[u8], label: Label, target: u64) -> usize
    ensures { Stores (edge_line (block_name piece.now label.number label.word) (name_in piece.now target)) at out.old result out.new }
{
    let k = quoted::put_block(out, at, piece, label);
    let k1 = put_all(out, k, b" -> ");
    let k2 = quoted::put_name(out, k1, piece, target);
    put_all(out, k2, b"\n")
}

// The edge to the node at a place, if that is a name.
fn put_edge_to(
    out: &mut [u8],
    at: usize,
    piece: &[u8],
    label: Label,
    own: &[u64],
    place: usize,
) -> usize
    ensures { Stores (edges_to (block_name piece.now label.number label.word) (name_here piece.now own.now place)) at out.old result out.new }
{
    if record_steps::kind_in(record_steps::word_at(own, place)) == records::K_NAME {
        return put_edge(out, at, piece, label, record_steps::word_at(own, place + 1));
    }
    at
}

// The edges to the names among n nodes, the first at a place. Once the text is too long for any buffer nothing is looked at any more.
fn put_edges_from(
    out: &mut [u8],
    at: usize,
    piece: &[u8],
    label: Label,
    own: &[u64],
    first: usize,
    n: u16,
) -> usize
    ensures { Stores (edges_to (block_name piece.now label.number label.word) (names_from n piece.now own.now (some first))) at out.old result out.new }
{
    let mut k = at;
    let mut place = first;
    for _i in 0..n {
        if k == PAST {
            return k;
        }
        k = put_edge_to(out, k, piece, label, own, place);
        match record_steps::next(own, place, own.len()) {
            Some(to) => place = to,
            None => return k,
        }
    }
    k
}

// The edges of the terminator at a place.
fn put_edges_at(
    out: &mut [u8],
    at: usize,
    piece: &[u8],
    label: Label,
    own: &[u64],
    terminator: usize,
) -> usize
    ensures { Stores (edges_to (block_name piece.now label.number label.word) (targets_at piece.now own.now terminator)) at out.old result out.new }
{
    let header = record_steps::word_at(own, terminator);
    if !names_targets(record_steps::kind_in(header)) {
        return at;
    }
    match record_steps::child(own, terminator) {
        Some(first) => put_edges_from(
            out,
            at,
            piece,
            label,
            own,
            first,
            record_steps::children_in(header),
        ),
        None => at,
    }
}

// The edges of the block.
pub fn put_edges(out: &mut [u8], at: usize, piece: &[u8], label: Label, own: &[u64]) -> usize
    ensures { Stores (edges_to (block_name piece.now label.number label.word) (targets_in piece.now own.now)) at out.old result out.new }
{
    match record_steps::child(own, 0) {
        Some(first) => {
            let terminator = last(
                own,
                first,
                record_steps::children_in(record_steps::word_at(own, 0)),
            );
            put_edges_at(out, at, piece, label, own, terminator)
        }
        None => at,
    }
}
