// The types that hold no other, and nodes that are a header, or a header and one word. Each function writes the words of what it reads behind the
// cursor.
#![tactic(auto)]

ghost use Rattle.std.specs.Prelude.{◌≡◌, List, [], ℕ};
ghost use Rattle.program.specs.Prog.{ret};
ghost use Rattle.records.specs.Words.{header, node};
ghost use Rattle.grammar.specs.Lexer.{refuse};
ghost use Rattle.grammar.specs.Types.{int_type, name_node, opt_addrspace, ptr_type};
ghost use Rattle.lexer.specs.Reads.{Leads, Reads, Gives, made, same};
ghost use Rattle.type_leaves.specs.Leaf.{word_types};

use lexer::Parsed;

// The header of a node of n words without detail and children.
fn plain_header(kind: u8, n: u8) -> u64
    ensures { result ≡ header kind 0 0 n }
{
    (kind as u64) * records::KIND_UNIT + (n as u64)
}

// A node that is its header.
pub fn leaf(words: &mut [u64], p: Parsed, kind: u8) -> Parsed
    ensures { (text : List ℕ) → Leads (ret (node kind 0 0 [])) 1 [] (made same text p) text p p words.old result words.new }
{
    let h = plain_header(kind, 1);
    node_words::push(words, p, h)
}

// `iN`, behind the i.
pub fn int_type(text: &[u8], words: &mut [u64], p: Parsed) -> Parsed
    ensures { Leads int_type 2 [] (made same text.now p) text.now p p words.old result words.new }
{
    let n = number_counts::parse_int(text, p, 1, records::WIDTH_LIMIT);
    let q = n.p;
    let h = plain_header(records::K_INT, 2);
    let q1 = node_words::push(words, q, h);
    node_words::push(words, q1, n.v)
}

// A node that holds a name, behind the sigil.
pub fn name_node(text: &[u8], words: &mut [u64], p: Parsed, kind: u8) -> Parsed
    ensures { Leads (name_node kind) 2 [] (made same text.now p) text.now p p words.old result words.new }
{
    let n = lexer_names::name_word(text, p);
    let q = n.p;
    let h = plain_header(kind, 2);
    let q1 = node_words::push(words, q, h);
    node_words::push(words, q1, n.v)
}

// `addrspace(..)`, where it stands.
fn addrspace(text: &[u8], p: Parsed) -> Parsed
    ensures { Gives opt_addrspace tt text.now p result }
{
    if lexer::word(text, p, b"addrspace") {
        let q = lexer::pass_word(text, p, b"addrspace");
        return lexer_names::skip_parens(text, q);
    }
    p
}

// The same. Where no `a` stands nothing is called.
pub fn opt_addrspace(text: &[u8], p: Parsed) -> Parsed
    ensures { Gives opt_addrspace tt text.now p result }
{
    if lexer::looks(text, p, b'a') {
        let q = addrspace(text, p);
        return lexer::anew(q);
    }
    p
}

// `ptr`, behind the word.
fn ptr_type(text: &[u8], words: &mut [u64], p: Parsed) -> Parsed
    ensures { Leads ptr_type 1 [] (made same text.now p) text.now p p words.old result words.new }
{
    let q = lexer::eat_ws(text, p);
    if lexer::looks(text, q, b'a') {
        let q1 = addrspace(text, q);
        return leaf(words, q1, records::K_PTR);
    }
    leaf(words, q, records::K_PTR)
}

// The types that are a word, or 5. No two words stand at one place, so they are tried by how often they come.
pub fn keyword_type(text: &[u8], words: &mut [u64], p: Parsed) -> Parsed
    ensures { Reads (word_types (refuse 5)) text.now p words.old result words.new }
{
    if lexer::word(text, p, b"ptr") {
        let q = lexer::pass_word(text, p, b"ptr");
        return ptr_type(text, words, q);
    }
    if lexer::word(text, p, b"void") {
        let q = lexer::pass_word(text, p, b"void");
        return leaf(words, q, records::K_VOID);
    }
    if lexer::word(text, p, b"double") {
        let q = lexer::pass_word(text, p, b"double");
        return leaf(words, q, records::K_DOUBLE);
    }
    if lexer::word(text, p, b"float") {
        let q = lexer::pass_word(text, p, b"float");
        return leaf(words, q, records::K_FLOAT);
    }
    if lexer::word(text, p, b"label") {
        let q = lexer::pass_word(text, p, b"label");
        return leaf(words, q, records::K_LABEL);
    }
    if lexer::word(text, p, b"metadata") {
        let q = lexer::pass_word(text, p, b"metadata");
        return leaf(words, q, records::K_METADATA);
    }
    lexer::refuse(p, records::Q_TYPE)
}
