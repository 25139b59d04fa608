// The parts of a function: the text of a piece, and the words of a node, each cut off where what is lent ends. Over any records whatever.
#![tactic(auto)]

ghost use Rattle.std.specs.Prelude.{◌≡◌, drop};
ghost use Rattle.map_spec.specs.Blocks.{piece_text, first_node, behind_node};

// The text of a piece, as its entry's first word says, as far as the text reaches.
pub fn piece_text(text: &[u8], x: u64) -> &[u8]
    ensures { result.now ≡ piece_text text.now x }
{
    let start = ((x / records::HALF) as usize).min(text.len());
    let end = start + ((x % records::HALF) as usize).min(text.len() - start);
    &text[start..end]
}

// Where the node that begins at a place ends: behind as many words as its header says, or at the array's end.
pub fn behind_node(words: &[u64], at: usize) -> usize
    ensures { drop result words.now ≡ behind_node (drop at words.now) }
{
    if words.len() <= at {
        return at;
    }
    let extent = (words[at] % records::HALF) as usize;
    at + extent.min(words.len() - at)
}

// Its words.
pub fn node_at(words: &[u64], at: usize) -> &[u64]
    ensures { result.now ≡ first_node (drop at words.now) }
{
    if words.len() <= at {
        return &[];
    }
    let extent = (words[at] % records::HALF) as usize;
    let end = at + extent.min(words.len() - at);
    &words[at..end]
}
