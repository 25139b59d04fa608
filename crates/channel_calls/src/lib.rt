// The channel of a call to `@fire` (02: M-102), from the records of a function and its text. Over any records whatever.
#![tactic(auto)]

ghost use Rattle.std.specs.Prelude.{◌≡◌};
ghost use Rattle.std.proofs.Math.Option.{some};
ghost use Rattle.record_steps.specs.Views.{reached};
ghost use Rattle.channel_spec.specs.Fires.{constant, is_fire, callee_place, child_at, calls_fire_at, constant_at, fire_here, fires_from, fires_in, word_fires, nth};
ghost use Rattle.channel_calls.specs.Seek.{seek};

use channel_spec::Fired;
use std::ops::ControlFlow;

// Seeking a call of some number among some calls breaks off with what it says; or goes on, where they are fewer, with its number among those behind
// them.
type Search = ControlFlow<Fired, u64>;

// What an integer constant says, by its upper and its lower word.
#[tactic(auto, unfolding(channel_spec::specs::Fires::constant))]
fn constant(upper: u64, lower: u64) -> Fired
    ensures { result ≡ constant upper lower }
{
    if upper == 0 && lower <= u64::from(records::CHANNEL_LIMIT) {
        return Fired::Channel(lower as u16);
    }
    Fired::Undecided
}

// Is a node of this kind, with this word behind its header, the global `@fire`?
fn is_fire(piece: &[u8], kind: u8, word: u64) -> bool
    ensures { result ≡ is_fire piece.now kind word }
{
    if kind != records::K_GLOBAL {
        return false;
    }
    let raw = record_steps::names::text_in(piece, word);
    lexer_spelling::spells(raw, 0, raw.len(), b"fire")
}

// Which child of a call the callee is.
#[tactic(auto, unfolding(channel_spec::specs::Fires::callee_place))]
fn callee_place(detail: u8) -> u8
    ensures { result ≡ callee_place detail }
{
    detail / records::D_FUNCTION_TYPE % 2 + 1
}

// The place of a child in a node's own words.
fn child_at(node: &[u64], number: u8) -> Option<usize>
    ensures { reached result ≡ child_at number node.now }
{
    let mut at = record_steps::child(node, 0)?;
    for _i in 0..number {
        at = record_steps::next(node, at, node.len())?;
    }
    Some(at)
}

// Is the node where a step has gone the global `@fire`? Past the words stands no global; asked first, so that no place wraps.
fn calls_fire_at(piece: &[u8], node: &[u64], callee: Option<usize>) -> bool
    ensures { result ≡ calls_fire_at piece.now node.now (reached callee) }
{
    match callee {
        Some(at) => {
            if node.len() <= at {
                return false;
            }
            let kind = record_steps::kind_in(record_steps::word_at(node, at));
            is_fire(piece, kind, record_steps::word_at(node, at + 1))
        }
        None => false,
    }
}

// What the node where a step has gone says, an argument's value. A constant stands inside the words, so that no place wraps.
fn constant_at(node: &[u64], value: Option<usize>) -> Fired
    ensures { result ≡ constant_at node.now (reached value) }
{
    match value {
        Some(at) => {
            if record_steps::kind_in(record_steps::word_at(node, at)) == records::K_INT_CONST {
                let upper = record_steps::word_at(node, at + 1);
                return constant(upper, record_steps::word_at(node, at + 2));
            }
            Fired::Undecided
        }
        None => Fired::Undecided,
    }
}

// Seeks call number k in one node, which may be one. The first argument's value is the second child behind the callee: its type is the first.
fn seek_here(piece: &[u8], node: &[u64], k: u64) -> Search
    ensures { result ≡ seek k (fire_here piece.now node.now) }
{
    let header = record_steps::word_at(node, 0);
    if record_steps::kind_in(header) != records::K_CALL {
        return ControlFlow::Continue(k);
    }
    let callee = callee_place(record_steps::detail_in(header));
    if !calls_fire_at(piece, node, child_at(node, callee)) {
        return ControlFlow::Continue(k);
    }
    if 0 < k {
        return ControlFlow::Continue(k - 1);
    }
    ControlFlow::Break(constant_at(node, child_at(node, callee + 2)))
}

// Seeks it among n nodes of a block, the first at a place.
fn seek_from(piece: &[u8], own: &[u64], first: usize, n: u16, k: u64) -> Search
    ensures { result ≡ seek k (fires_from n piece.now own.now (some first)) }
{
    let mut more = k;
    let mut at = first;
    for _i in 0..n {
        more = seek_here(piece, record_blocks::node_at(own, at), more)?;
        match record_steps::next(own, at, own.len()) {
            Some(to) => at = to,
            None => return ControlFlow::Continue(more),
        }
    }
    ControlFlow::Continue(more)
}

// Seeks it in a block, whose words are lent alone.
fn seek_in(piece: &[u8], own: &[u64], k: u64) -> Search
    ensures { result ≡ seek k (fires_in piece.now own.now) }
{
    match record_steps::child(own, 0) {
        Some(first) => {
            let n = record_steps::children_in(record_steps::word_at(own, 0));
            seek_from(piece, own, first, n, k)
        }
        None => ControlFlow::Continue(k),
    }
}

// What call number n of a function says. The first entry is the head's and the last the tail's; the blocks stand between them, in words and directory,
// and are looked at in turn, each once.
pub fn fired(text: &[u8], words: &[u64], directory: &[u64], entries: u64, n: u64) -> Fired
    ensures { result ≡ nth n (word_fires entries text.now words.now directory.now) }
{
    let mut more = n;
    let mut w = record_blocks::behind_node(words, 0);
    for i in 1..entries.saturating_sub(1) as usize {
        if directory.len() / records::ENTRY_WORDS <= i {
            return Fired::Nothing;
        }
        let piece = record_blocks::piece_text(text, directory[i * records::ENTRY_WORDS]);
        match seek_in(piece, record_blocks::node_at(words, w), more) {
            ControlFlow::Break(fired) => return fired,
            ControlFlow::Continue(number) => more = number,
        }
        w = record_blocks::behind_node(words, w);
    }
    Fired::Nothing
}
