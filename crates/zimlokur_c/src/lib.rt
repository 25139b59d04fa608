// The calls of `zimlokur` for C: include/zimlokur.h has their prototypes. Each hands its arguments on, and promises what that call promises.
#![tactic(auto)]

ghost use Rattle.std.specs.Prelude.{◌≡◌, length};
ghost use Rattle.grammar.specs.Function.{reading_of, rereading_of};
ghost use Rattle.text_lines.specs.Place.{position_of};
ghost use Rattle.trees.specs.Steps.{child_of, next_of, part_of};
ghost use Rattle.map_spec.specs.Buffer.{block_map};
ghost use Rattle.channel_spec.specs.Answers.{channel_rule};
ghost use Rattle.zimlokur.specs.Report.{Reports, ReportsAgain, ReportsStep, ReportsPart, ReportsMap, ReportsChannel};

use channel_spec::Rule;

// The full reading. Returns 0, or the number of the question that refuses; then both arrays are zero.
#[unsafe(no_mangle)]
pub extern "C" fn zimlokur_parse_define(
    text: &[u8],
    words: &mut [u64],
    directory: &mut [u64],
    place: &mut u64,
    entries: &mut u64,
) -> u64
    ensures { Reports (reading_of (length words.old) (length directory.old) text.now) result place.new entries.new words.new directory.new }
{
    zimlokur::zimlokur_parse_define(text, words, directory, place, entries)
}

// The re-reading after an edit. Returns 0, or the number of the question that refuses; then both arrays are as they were lent.
#[unsafe(no_mangle)]
pub extern "C" fn zimlokur_reparse_define(
    older: &[u8],
    newer: &[u8],
    words: &mut [u64],
    directory: &mut [u64],
    older_entries: u64,
    place: &mut u64,
    entries: &mut u64,
    first: &mut u64,
    read: &mut u64,
) -> u64
    ensures { ReportsAgain (rereading_of words.old directory.old older_entries older.now newer.now) result place.new entries.new first.new read.new words.new directory.new }
{
    zimlokur::zimlokur_reparse_define(
        older,
        newer,
        words,
        directory,
        older_entries,
        place,
        entries,
        first,
        read,
    )
}

// The line and the column of a place, both counted from 1.
#[unsafe(no_mangle)]
pub extern "C" fn zimlokur_position(text: &[u8], place: u64, line: &mut u64, column: &mut u64)
    ensures { (line.new ≡ (position_of text.now place).line) × (column.new ≡ (position_of text.now place).column) }
{
    zimlokur::zimlokur_position(text, place, line, column);
}

// The step to a node's first child. Returns 1 with the place it goes to, or 0 with the place it was asked at.
#[unsafe(no_mangle)]
pub extern "C" fn zimlokur_child(words: &[u64], at: u64, to: &mut u64) -> u64
    ensures { ReportsStep (child_of words.now at) at result to.new }
{
    zimlokur::zimlokur_child(words, at, to)
}

// The step to the next node below an end. Returns 1 with the place it goes to, or 0 with the place it was asked at.
#[unsafe(no_mangle)]
pub extern "C" fn zimlokur_next(words: &[u64], at: u64, end: u64, to: &mut u64) -> u64
    ensures { ReportsStep (next_of words.now at end) at result to.new }
{
    zimlokur::zimlokur_next(words, at, end, to)
}

// The text of a name. Returns 1 with the part's start and length in the piece, or 0 with both 0.
#[unsafe(no_mangle)]
pub extern "C" fn zimlokur_name(piece: &[u8], name: u64, start: &mut u64, len: &mut u64) -> u64
    ensures { ReportsPart (part_of (length piece.now) name) result start.new len.new }
{
    zimlokur::zimlokur_name(piece, name, start, len)
}

// The block map, from what a reading left and its text. Returns 0 with how many bytes the map has, or 27 with 0; then the buffer is zero.
#[unsafe(no_mangle)]
pub extern "C" fn zimlokur_block_map(
    text: &[u8],
    words: &[u64],
    directory: &[u64],
    entries: u64,
    map: &mut [u8],
    place: &mut u64,
    len: &mut u64,
) -> u64
    ensures { ReportsMap (block_map (length map.old) entries text.now words.now directory.now) result place.new len.new map.new }
{
    zimlokur::zimlokur_block_map(text, words, directory, entries, map, place, len)
}

// May a class fire what the n-th call to `@fire` names? Returns 0 with the answer, or the number of the question that refuses the table.
#[unsafe(no_mangle)]
pub extern "C" fn zimlokur_channel(
    rules: &[Rule],
    account_class: u64,
    n: u64,
    text: &[u8],
    words: &[u64],
    directory: &[u64],
    entries: u64,
    place: &mut u64,
    answer: &mut u64,
) -> u64
    ensures { ReportsChannel (channel_rule account_class n entries rules.now text.now words.now directory.now) result place.new answer.new }
{
    zimlokur::zimlokur_channel(
        rules,
        account_class,
        n,
        text,
        words,
        directory,
        entries,
        place,
        answer,
    )
}
