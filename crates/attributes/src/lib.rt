// Attributes, linkage, calling conventions and flags: what is read and dropped (parser.rs, "Attribute / token skipping helpers").
// Each table of words stands before the function that searches it.
#![tactic(auto)]

ghost use Rattle.std.specs.Prelude.{◌≡◌, drop};
ghost use Rattle.grammar.specs.Lexer.{skip_all};
ghost use Rattle.records.specs.Limits.{turns};
ghost use Rattle.grammar.specs.Attributes.{paren_attrs, flag_attrs, linkages, calling_conventions, conv_flags, skip_arith_flags, skip_fast_math_flags, parse_linkage, skip_call_cconv, group_step, attr_parens, skip_attrs};
ghost use Rattle.attributes.specs.Step.{group_digits, AttrStep, letters, letters_p, no_attrs};
ghost use Rattle.lexer.specs.Step.{step_of, rank_p, ranked_p};
ghost use Rattle.lexer.specs.Reads.{Gives};

use lexer::{Cursor, Parsed, limits, scan_text};
use lexer_keywords::Ranked;

// The rank of a linkage that is not written.
const UNWRITTEN: usize = records::NO_LINKAGE as usize;

// The rank of `dead_on_return` in `PAREN_ATTRS`.
const DEAD_ON_RETURN: usize = 18;

static PAREN_ATTRS: [&[u8]; 19] = [
    b"captures",
    b"memory",
    b"range",
    b"dereferenceable",
    b"dereferenceable_or_null",
    b"byval",
    b"byref",
    b"sret",
    b"inalloca",
    b"preallocated",
    b"elementtype",
    b"alignstack",
    b"allocsize",
    b"allockind",
    b"vscale_range",
    b"nofpclass",
    b"addrspace",
    b"initializes",
    b"dead_on_return",
];

// An attribute with parentheses behind it (`PAREN_ATTRS`).
fn paren_attr(text: &[u8], p: Parsed) -> Ranked
    ensures { (result.r ≡ rank_p paren_attrs text.now p) × (result.p ≡ ranked_p paren_attrs text.now p) }
{
    lexer_keywords::match_rank(text, p, &PAREN_ATTRS)
}

static FLAG_ATTRS: [&[u8]; 64] = [
    b"private",
    b"internal",
    b"available_externally",
    b"linkonce",
    b"linkonce_odr",
    b"weak",
    b"weak_odr",
    b"appending",
    b"common",
    b"extern_weak",
    b"external",
    b"hidden",
    b"protected",
    b"default",
    b"dso_local",
    b"dso_preemptable",
    b"unnamed_addr",
    b"local_unnamed_addr",
    b"comdat",
    b"noundef",
    b"nonnull",
    b"signext",
    b"zeroext",
    b"inreg",
    b"noalias",
    b"nocapture",
    b"readonly",
    b"readnone",
    b"writeonly",
    b"immarg",
    b"returned",
    b"nest",
    b"writable",
    b"dead_on_unwind",
    b"dead_on_return",
    b"nounwind",
    b"nofree",
    b"mustprogress",
    b"willreturn",
    b"norecurse",
    b"nosync",
    b"nocallback",
    b"uwtable",
    b"noreturn",
    b"noinline",
    b"alwaysinline",
    b"inlinehint",
    b"optsize",
    b"optnone",
    b"minsize",
    b"cold",
    b"hot",
    b"convergent",
    b"speculatable",
    b"nobuiltin",
    b"noimplicitfloat",
    b"noredzone",
    b"strictfp",
    b"ssp",
    b"sspstrong",
    b"sspreq",
    b"sanitize_address",
    b"sanitize_memory",
    b"sanitize_thread",
];

// An attribute that is a word alone (`FLAG_ATTRS`).
fn flag_attr(text: &[u8], p: Parsed) -> Ranked
    ensures { (result.r ≡ rank_p flag_attrs text.now p) × (result.p ≡ ranked_p flag_attrs text.now p) }
{
    lexer_keywords::match_rank(text, p, &FLAG_ATTRS)
}

static LINKAGES: [&[u8]; 11] = [
    b"private",
    b"internal",
    b"available_externally",
    b"linkonce",
    b"weak",
    b"common",
    b"appending",
    b"extern_weak",
    b"linkonce_odr",
    b"weak_odr",
    b"external",
];

// A linkage, in ast.rs order.
fn linkage(text: &[u8], p: Parsed) -> Ranked
    ensures { (result.r ≡ rank_p linkages text.now p) × (result.p ≡ ranked_p linkages text.now p) }
{
    lexer_keywords::match_rank(text, p, &LINKAGES)
}

static CALLING_CONVENTIONS: [&[u8]; 10] = [
    b"ccc",
    b"fastcc",
    b"coldcc",
    b"tailcc",
    b"swiftcc",
    b"swifttailcc",
    b"anyregcc",
    b"preserve_mostcc",
    b"preserve_allcc",
    b"cxx_fast_tlscc",
];

// A calling convention (`CCONVS`).
fn cconv(text: &[u8], p: Parsed) -> Ranked
    ensures { (result.r ≡ rank_p calling_conventions text.now p) × (result.p ≡ ranked_p calling_conventions text.now p) }
{
    lexer_keywords::match_rank(text, p, &CALLING_CONVENTIONS)
}

static NO_ATTRS: [&[u8]; 8] = [
    b"ptr", b"void", b"br", b"ret", b"store", b"call", b"tail", b"switch",
];

// Words that often stand where an attribute might, and are none: types, and words that begin a statement.
fn no_attr(text: &[u8], p: Parsed) -> Ranked
    ensures { (result.r ≡ rank_p no_attrs text.now p) × (result.p ≡ ranked_p no_attrs text.now p) }
{
    lexer_keywords::match_rank(text, p, &NO_ATTRS)
}

static ARITH_FLAGS: [&[u8]; 4] = [b"nuw", b"nsw", b"exact", b"disjoint"];

// Flags of integer arithmetic.
pub fn skip_arith_flags(text: &[u8], p: Parsed) -> Parsed
    ensures { Gives skip_arith_flags tt text.now p result }
{
    lexer_keywords::skip_all(text, p, &ARITH_FLAGS)
}

static FAST_MATH_FLAGS: [&[u8]; 8] = [
    b"fast",
    b"nnan",
    b"ninf",
    b"nsz",
    b"arcp",
    b"contract",
    b"afn",
    b"reassoc",
];

// Fast-math flags.
pub fn skip_fast_math_flags(text: &[u8], p: Parsed) -> Parsed
    ensures { Gives skip_fast_math_flags tt text.now p result }
{
    lexer_keywords::skip_all(text, p, &FAST_MATH_FLAGS)
}

static CONV_FLAGS: [&[u8]; 3] = [b"nneg", b"nuw", b"nsw"];

// Flags of conversions.
pub fn skip_conv_flags(text: &[u8], p: Parsed) -> Parsed
    ensures { Gives (skip_all turns conv_flags) tt text.now p result }
{
    lexer_keywords::skip_all(text, p, &CONV_FLAGS)
}

// A linkage's rank, 10 when unwritten (`parse_linkage`).
pub fn parse_linkage(text: &[u8], p: Parsed) -> Ranked
    ensures { Gives parse_linkage result.r text.now p result.p }
{
    let q = lexer::eat_ws(text, p);
    let k = linkage(text, q);
    let r = k.r;
    let q1 = k.p;
    if r < LINKAGES.len() {
        return Ranked { p: q1, r };
    }
    Ranked {
        p: q1,
        r: UNWRITTEN,
    }
}

// A calling convention, where one stands (`skip_call_cconv`).
pub fn skip_call_cconv(text: &[u8], p: Parsed) -> Parsed
    ensures { Gives skip_call_cconv tt text.now p result }
{
    let q = lexer::eat_ws(text, p);
    let k = cconv(text, q);
    let q1 = k.p;
    if k.r < CALLING_CONVENTIONS.len() {
        return q1;
    }
    if lexer::word(text, q1, b"cc") {
        let q2 = lexer::pass_word(text, q1, b"cc");
        let q3 = lexer::eat_ws(text, q2);
        let n = number_counts::parse_int(text, q3, 0, records::NUMBER_LIMIT);
        return n.p;
    }
    q1
}

// A group's digits, underscores not taken: the one state, or none where they end.
fn group_step(q: u8, b: u8) -> Option<u8>
    ensures { step_of result ≡ group_step q b }
{
    if lexer::class(b) < limits::DIGIT {
        Some(0)
    } else {
        None
    }
}

// The digits behind `#`.
fn skip_group(text: &[u8], p: Parsed) -> Parsed
    ensures { Gives group_digits tt text.now p result }
{
    let c = p?;
    Ok(Cursor {
        at: scan_text(text, c.at, group_step).at,
        w: c.w,
    })
}

// The parentheses behind a word of `PAREN_ATTRS`, by its rank; `dead_on_return` may stand without.
fn attr_parens(text: &[u8], p: Parsed, r: usize) -> Parsed
    ensures { Gives (attr_parens r) tt text.now p result }
{
    if r == DEAD_ON_RETURN {
        let q = lexer::eat_ws(text, p);
        if lexer::looks(text, q, b'(') {
            return lexer_names::skip_parens(text, q);
        }
        return q;
    }
    lexer_names::skip_parens(text, p)
}

// Where the reader is behind one attribute, or behind them all.
#[derive(Clone, Copy)]
pub struct Passed {
    pub p: Parsed,
    pub more: bool,
}

// Do two small letters stand at `at`? Every attribute's word begins with two.
fn letters_at(text: &[u8], at: usize) -> bool
    ensures { result ≡ letters (drop at text.now) }
{
    if text.len() <= at {
        return false;
    }
    if text.len() - at <= 1 {
        return false;
    }
    let x = text[at];
    let y = text[at + 1];
    if x < b'a' {
        return false;
    }
    if b'z' < x {
        return false;
    }
    if y < b'a' {
        return false;
    }
    if b'z' < y {
        return false;
    }
    true
}

// The same at the cursor.
fn two_letters(text: &[u8], p: Parsed) -> bool
    ensures { result ≡ letters_p text.now p }
{
    match p {
        Ok(c) => letters_at(text, c.at),
        Err(_) => false,
    }
}

// One attribute, or none. Where no two letters stand, none does, and no table is searched; nor is one for `noundef`, the most frequent.
// The small table of words that are none is asked before the two long ones.
fn attr_step(text: &[u8], p: Parsed) -> Passed
    ensures { AttrStep text.now p result.p result.more }
{
    let q = lexer::eat_ws(text, p);
    if lexer::looks(text, q, b'#') {
        let q1 = lexer::pass(text, q, 1);
        let q2 = skip_group(text, q1);
        return Passed { p: q2, more: true };
    }
    if lexer::looks(text, q, b'"') {
        let q3 = lexer::refuse(q, records::Q_LEFT_OUT);
        return Passed { p: q3, more: false };
    }
    if !two_letters(text, q) {
        return Passed { p: q, more: false };
    }
    if lexer::word(text, q, b"noundef") {
        let q4 = lexer::pass_word(text, q, b"noundef");
        return Passed { p: q4, more: true };
    }
    let n = no_attr(text, q);
    if n.r < NO_ATTRS.len() {
        return Passed { p: q, more: false };
    }
    let k = paren_attr(text, q);
    let q5 = k.p;
    let r = k.r;
    if r < PAREN_ATTRS.len() {
        let q6 = attr_parens(text, q5, r);
        return Passed { p: q6, more: true };
    }
    if lexer::word(text, q5, b"align") {
        let q7 = lexer::pass_word(text, q5, b"align");
        let q8 = lexer::eat_ws(text, q7);
        let n = number_counts::parse_int(text, q8, 0, records::NUMBER_LIMIT);
        let q9 = n.p;
        return Passed { p: q9, more: true };
    }
    let f = flag_attr(text, q5);
    let q10 = f.p;
    let s = f.r;
    if s < FLAG_ATTRS.len() {
        return Passed { p: q10, more: true };
    }
    Passed {
        p: q10,
        more: false,
    }
}

// Attributes, as many as stand there (`skip_attrs`).
pub fn skip_attrs(text: &[u8], p: Parsed) -> Parsed
    ensures { Gives skip_attrs tt text.now p result }
{
    let mut q = p;
    for _left in (0..records::TURNS).rev() {
        let s = attr_step(text, q);
        q = s.p;
        if !s.more {
            return q;
        }
    }
    q
}
