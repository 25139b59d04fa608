// A window of 64 channels of one class, and what a rule marks in it: a bit for each channel, the lowest for the first.
ghost use Rattle.std.specs.Prelude.{◌≡◌, ◌≤◌, ◌<◌};
ghost use Rattle.channel_table.specs.Windows.{window_size, window_at, bits_of, marks_of, is_of_class, meets, break_before, marked, first_clear};

use channel_spec::Rule;

// How many channels a window has.
pub const WINDOW: u64 = 64;

// How many channels there are.
pub const CHANNELS: u64 = 65536;

// The window: its class and its first channel; the channels of it that are marked; and the lowest channel behind it at which a rule of the class begins
// or behind which one has ended.
#[derive(Clone, Copy)]
pub struct Window {
    pub class: u8,
    pub from: u16,
    pub marks: u64,
    pub next: u64,
}

// A window without marks.
#[tactic(auto, unfolding(crate::specs::Windows::window_at))]
pub fn window_at(class: u8, from: u16) -> Window
    ensures { result ≡ window_at class from }
{
    Window {
        class,
        from,
        marks: 0,
        next: CHANNELS,
    }
}

// The bits from a to b.
fn bits_of(a: u64, b: u64) -> u64
    requires { (a ≤ b) × (b < window_size) }
    ensures { result ≡ bits_of a b }
{
    let below = (1u64 << (b - a)) - 1;
    (below + below + 1) << a
}

// What a rule marks in the window that begins at a channel.
#[tactic(auto, unfolding(crate::specs::Windows::marks_of))]
fn marks_of(rule: Rule, from: u16) -> u64
    ensures { result ≡ marks_of rule from }
{
    if rule.last < rule.first || rule.last < from {
        return 0;
    }
    let a = u64::from(rule.first.saturating_sub(from));
    if WINDOW <= a {
        return 0;
    }
    bits_of(a, u64::from(rule.last - from).min(WINDOW - 1))
}

// Is a rule one of the window's class?
#[tactic(auto, unfolding(crate::specs::Windows::is_of_class))]
fn is_of_class(window: Window, rule: Rule) -> bool
    ensures { result ≡ is_of_class window rule }
{
    window.class == rule.account_class
}

// Does a rule share a channel of the window with those that are marked in it?
#[tactic(auto, unfolding(crate::specs::Windows::meets))]
pub fn meets(window: Window, rule: Rule) -> bool
    ensures { result ≡ meets window rule }
{
    is_of_class(window, rule) && window.marks & marks_of(rule, window.from) != 0
}

// The lower of two channels behind the window; the first is one only if it is not before the window's end.
#[tactic(auto, unfolding(crate::specs::Windows::break_before))]
fn break_before(from: u16, channel: u64, next: u64) -> u64
    ensures { result ≡ break_before from channel next }
{
    if channel < u64::from(from) + WINDOW {
        return next;
    }
    channel.min(next)
}

// The window once a rule is marked in it.
#[tactic(auto, unfolding(crate::specs::Windows::marked))]
pub fn marked(window: Window, rule: Rule) -> Window
    ensures { result ≡ marked window rule }
{
    if !is_of_class(window, rule) {
        return window;
    }
    let next = break_before(window.from, u64::from(rule.first), window.next);
    Window {
        marks: window.marks | marks_of(rule, window.from),
        next: break_before(window.from, u64::from(rule.last) + 1, next),
        ..window
    }
}

// The lowest bit that is not marked; past the window where all are.
pub fn first_clear(marks: u64) -> u64
    ensures { result ≡ first_clear window_size 0 marks }
{
    for k in 0..WINDOW {
        if (marks >> k) % 2 == 0 {
            return k;
        }
    }
    WINDOW
}
