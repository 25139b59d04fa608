// Channel rules per account class (02: M-102): definitions, and what is lent and told.
#![tactic(auto)]

use records::Refusal;

// A rule, as it is lent: a class, whether it may fire (0 is no, all else yes), and the first and the last channel.
#[repr(C)]
#[derive(Clone, Copy)]
pub struct Rule {
    pub account_class: u8,
    pub allowed: u8,
    pub first: u16,
    pub last: u16,
}

// What a call to `@fire` says: its channel; or that none can be read off its first argument; or that there is no such call.
#[derive(Clone, Copy)]
pub enum Fired {
    Channel(u16),
    Undecided,
    Nothing,
}

// What is told: an answer; or the refusal of the table.
pub type Told = Result<u64, Refusal>;

// The answers.
pub const ANSWER_NO: u64 = 0;

pub const ANSWER_YES: u64 = 1;

pub const ANSWER_UNDECIDED: u64 = 2;

pub const ANSWER_NONE: u64 = 3;
