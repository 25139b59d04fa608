// Is a table of rules in order, and what does it say of a call (02: M-102)?
// One thin function alone is lent the rules: `judged` shows them, one at a time, to a search that says which one it wants next. All else takes a
// rule by value.
// A search makes passes over the rules, the last rule first, so that what it found last has the lowest number. Overlaps and gaps are looked for in
// windows of 64 channels of one class, whose marks are the bits of a word; windows in which no rule begins or ends are left out.
#![tactic(auto)]

pub mod windows; // windows.rt: a window of channels, and what a rule marks in it

ghost use Rattle.std.specs.Prelude.{◌≡◌, ◌<◌, length, slice_index_or};
ghost use Rattle.channel_spec.specs.Table.{channels, is_bad, overlap, covers};
ghost use Rattle.channel_spec.specs.Answers.{ruling};
ghost use Rattle.channel_spec.specs.Told.{Refused};
ghost use Rattle.channel_table.specs.Search.{no_rule, covers_call, finds, question_after, found_after, moved, look, pass, done, later, gap_after, answering, behind_windows, behind_window, answered, turned, shown, begin};

use channel_spec::{Fired, Rule, Told};
use records::Refusal;
use windows::{CHANNELS, WINDOW, Window};

// What a pass asks of each rule: is it bad; does it share a channel of a window with one behind it; does it overlap the earlier rule, and stands
// behind it; does it cover the channel of the call. Or nothing more.
#[derive(Clone, Copy)]
pub enum Question {
    Bad,
    Shared(Window),
    Later,
    Covering,
    Nothing,
}

// A rule with its number; past the rules where none was found.
#[derive(Clone, Copy)]
pub struct Found {
    pub number: usize,
    pub rule: Rule,
}

// A search: the rule that is wanted next, or past them where nothing more is asked; how many there are; the class and the call that are asked about;
// the question of this pass, and what it has found; the earlier rule of an overlap; the lowest gap; and what is told in the end.
#[derive(Clone, Copy)]
pub struct Search {
    pub at: usize,
    pub count: usize,
    pub asked: u64,
    pub fired: Fired,
    pub question: Question,
    pub found: Found,
    pub earlier: Found,
    pub gap: u64,
    pub told: Told,
}

// The place of no gap: all classes times channels.
const NO_GAP: u64 = 262144;

// 23: the class is above 3, or the first channel above the last.
#[tactic(auto, unfolding(channel_spec::specs::Table::is_bad))]
fn is_bad(rule: Rule) -> bool
    ensures { result ≡ is_bad rule }
{
    records::CLASS_LIMIT < rule.account_class || rule.last < rule.first
}

// 24: do two rules share a channel of one class?
#[tactic(auto, unfolding(channel_spec::specs::Table::overlap))]
fn overlap(a: Rule, b: Rule) -> bool
    ensures { result ≡ overlap a b }
{
    a.account_class == b.account_class && a.first <= b.last && b.first <= a.last
}

// Does a rule cover this channel of this class?
#[tactic(auto, unfolding(channel_spec::specs::Table::covers))]
fn covers(class: u64, channel: u16, rule: Rule) -> bool
    ensures { result ≡ covers class channel rule }
{
    u64::from(rule.account_class) == class && rule.first <= channel && channel <= rule.last
}

// The channel of a call?
#[tactic(auto, unfolding(crate::specs::Search::covers_call))]
fn covers_call(class: u64, fired: Fired, rule: Rule) -> bool
    ensures { result ≡ covers_call class fired rule }
{
    match fired {
        Fired::Channel(x) => covers(class, x, rule),
        Fired::Undecided | Fired::Nothing => false,
    }
}

// Does the rule that is shown answer the question of the pass with yes?
#[tactic(auto, unfolding(crate::specs::Search::finds, crate::specs::Search::answers))]
fn finds(s: Search, rule: Rule) -> bool
    ensures { result ≡ finds s rule }
{
    match s.question {
        Question::Bad => is_bad(rule),
        Question::Shared(window) => windows::meets(window, rule),
        Question::Later => s.earlier.number < s.at && overlap(s.earlier.rule, rule),
        Question::Covering => covers_call(s.asked, s.fired, rule),
        Question::Nothing => false,
    }
}

// The question once a rule was shown: a window has it marked.
#[tactic(auto, unfolding(crate::specs::Search::question_after))]
fn question_after(question: Question, rule: Rule) -> Question
    ensures { result ≡ question_after question rule }
{
    match question {
        Question::Shared(window) => Question::Shared(windows::marked(window, rule)),
        Question::Bad | Question::Later | Question::Covering | Question::Nothing => question,
    }
}

// What is found once a rule was shown: of those found the one with the lowest number is kept.
#[tactic(auto, unfolding(crate::specs::Search::found_after))]
fn found_after(s: Search, rule: Rule) -> Found
    ensures { result ≡ found_after s rule }
{
    if s.at < s.found.number && finds(s, rule) {
        return Found { number: s.at, rule };
    }
    s.found
}

// The search with another rule to be shown next, another question, and something else found.
#[tactic(auto, unfolding(crate::specs::Search::moved))]
fn moved(s: Search, at: usize, question: Question, found: Found) -> Search
    ensures { result ≡ moved s at question found }
{
    Search {
        at,
        question,
        found,
        ..s
    }
}

// The search once it has looked at a rule.
#[tactic(auto, unfolding(crate::specs::Search::look))]
fn look(s: Search, rule: Rule) -> Search
    ensures { result ≡ look s rule }
{
    moved(
        s,
        s.at,
        question_after(s.question, rule),
        found_after(s, rule),
    )
}

// No rule.
#[tactic(auto, unfolding(crate::specs::Search::no_rule))]
fn no_rule(count: usize) -> Found
    ensures { result ≡ no_rule count }
{
    Found {
        number: count,
        rule: Rule {
            account_class: 0,
            allowed: 0,
            first: 0,
            last: 0,
        },
    }
}

// The next pass, from the last rule on. What windows found is kept from one to the next.
#[tactic(auto, unfolding(crate::specs::Search::pass))]
fn pass(s: Search, question: Question, found: Found) -> Search
    ensures { result ≡ pass s question found }
{
    moved(s, s.count.saturating_sub(1), question, found)
}

// The refusal of a table.
fn refused(question: u64, place: usize) -> Told
    ensures { result ≡ Refused question place }
{
    Err(Refusal { question, place })
}

// Nothing more is wanted.
#[tactic(auto, unfolding(crate::specs::Search::done))]
fn done(s: Search, told: Told) -> Search
    ensures { result ≡ done s told }
{
    Search {
        at: s.count,
        question: Question::Nothing,
        told,
        ..s
    }
}

// An overlap was found: which is the first rule behind it that shares a channel with it?
#[tactic(auto, unfolding(crate::specs::Search::later))]
fn later(s: Search) -> Search
    ensures { result ≡ later s }
{
    Search {
        at: s.count.saturating_sub(1),
        question: Question::Later,
        found: no_rule(s.count),
        earlier: s.found,
        ..s
    }
}

// The lowest gap, once a window is whole: windows come in the order of the places.
#[tactic(auto, unfolding(crate::specs::Search::gap_after))]
fn gap_after(gap: u64, window: Window) -> u64
    ensures { result ≡ gap_after gap window }
{
    let k = windows::first_clear(window.marks);
    if gap == NO_GAP && k < WINDOW {
        return u64::from(window.class) * CHANNELS + u64::from(window.from) + k;
    }
    gap
}

// The table stands: what of the call?
#[tactic(auto, unfolding(crate::specs::Search::answering, crate::specs::Search::answering_to))]
fn answering(s: Search) -> Search
    ensures { result ≡ answering s }
{
    match s.fired {
        Fired::Channel(_) => pass(s, Question::Covering, no_rule(s.count)),
        Fired::Undecided => done(s, Ok(channel_spec::ANSWER_UNDECIDED)),
        Fired::Nothing => done(s, Ok(channel_spec::ANSWER_NONE)),
    }
}

// All windows are behind: an overlap comes before a gap.
#[tactic(auto, unfolding(crate::specs::Search::behind_windows))]
fn behind_windows(s: Search) -> Search
    ensures { result ≡ behind_windows s }
{
    if s.found.number < s.count {
        return later(s);
    }
    if s.gap != NO_GAP {
        return done(s, refused(records::Q_GAP, s.gap as usize));
    }
    answering(s)
}

// The next window: the one with the next channel at which a rule begins or has ended; or the first one of the next class.
#[tactic(auto, unfolding(crate::specs::Search::behind_window, crate::specs::Search::with_gap))]
fn behind_window(s: Search, window: Window) -> Search
    ensures { result ≡ behind_window s window }
{
    let mut t = s;
    t.gap = gap_after(s.gap, window);
    if window.next < CHANNELS {
        let from = (window.next - window.next % WINDOW) as u16;
        return pass(
            t,
            Question::Shared(windows::window_at(window.class, from)),
            s.found,
        );
    }
    if window.class < records::CLASS_LIMIT {
        return pass(
            t,
            Question::Shared(windows::window_at(window.class + 1, 0)),
            s.found,
        );
    }
    behind_windows(t)
}

// What the rule that covers the channel says.
#[tactic(auto, unfolding(crate::specs::Search::answered))]
fn answered(s: Search) -> Search
    ensures { result ≡ answered s }
{
    if 0 < s.found.rule.allowed {
        return done(s, Ok(channel_spec::ANSWER_YES));
    }
    done(s, Ok(channel_spec::ANSWER_NO))
}

// The search once a pass is whole.
#[tactic(auto, unfolding(crate::specs::Search::turned, crate::specs::Search::turned_at))]
fn turned(s: Search) -> Search
    ensures { result ≡ turned s }
{
    match s.question {
        Question::Bad => {
            if s.found.number < s.count {
                return done(s, refused(records::Q_RULE, s.found.number));
            }
            pass(s, Question::Shared(windows::window_at(0, 0)), s.found)
        }
        Question::Shared(window) => behind_window(s, window),
        Question::Later => done(s, refused(records::Q_OVERLAP, s.found.number)),
        Question::Covering => answered(s),
        Question::Nothing => done(s, s.told),
    }
}

// The search once the rule that it wants is shown to it.
#[tactic(auto, unfolding(crate::specs::Search::shown, crate::specs::Search::look, crate::specs::Search::moved))]
pub fn shown(s: Search, rule: Rule) -> Search
    ensures { result ≡ shown s rule }
{
    let mut t = look(s, rule);
    if 0 < s.at {
        t.at = s.at - 1;
        return t;
    }
    turned(t)
}

// The search before the first rule. Without a rule the first channel of the first class is a gap.
#[tactic(auto, unfolding(crate::specs::Search::begin, crate::specs::Search::fresh))]
pub fn begin(asked: u64, fired: Fired, count: usize) -> Search
    ensures { result ≡ begin asked fired count }
{
    let none = no_rule(count);
    let s = Search {
        at: count,
        count,
        asked,
        fired,
        question: Question::Nothing,
        found: none,
        earlier: none,
        gap: NO_GAP,
        told: refused(records::Q_GAP, 0),
    };
    if u64::from(records::CLASS_LIMIT) < asked {
        return done(s, refused(records::Q_RULE, 0));
    }
    if count == 0 {
        return s;
    }
    pass(s, Question::Bad, none)
}

// The rule at a place of the table. Its last channel is read, so that it is known to be a number of 16 bits.
fn rule_at(rules: &[Rule], at: usize) -> Rule
    requires { at < length rules.now }
    ensures copied { (d : Rule) → result ≡ slice_index_or rules.now at d }
    ensures last_fits { result.last < channels }
{
    let _last = rules[at].last;
    rules[at]
}

// What the table and a call say to a class.
pub fn judged(rules: &[Rule], asked: u64, fired: Fired) -> Told
    ensures { result ≡ ruling asked rules.now fired }
{
    let mut s = begin(asked, fired, rules.len());
    // a `while`: `shown` says which rule comes next, and after a pass it is the last one again
    while s.at < rules.len() {
        s = shown(s, rule_at(rules, s.at));
    }
    s.told
}
