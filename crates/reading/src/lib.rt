// The full reading of one function, and its re-reading after an edit. Memory is lent: the words of the nodes, and the directory of the pieces.
#![tactic(auto)]

ghost use Rattle.std.specs.Prelude.{◌≡◌, length};
ghost use Rattle.records.specs.Pieces.{text_asked, fine};
ghost use Rattle.grammar.specs.Function.{reading_of, rereading_of};
ghost use Rattle.reading.specs.Answer.{left_by, left_again, AllAsked};
ghost use Rattle.reread_passes.specs.First.{Given};

use piece_directory::arrays::{clear, wipe};
use piece_directory::pieces::Older;
use reading_full::Written;
use records::Refusal;
use reread_passes::first::Known;

// A full reading is accepted, with so many entries; or refused.
pub type Answer = Result<usize, Refusal>;

// What an accepted re-reading reports: how many entries there are, the number of the first piece read, and how many are read.
#[derive(Clone, Copy)]
pub struct Renewed {
    pub entries: usize,
    pub first: usize,
    pub read: usize,
}

// A re-reading is accepted; or refused.
pub type Reread = Result<Renewed, Refusal>;

// All questions of a full reading. The pieces are written as they are read, so a late refusal leaves the earlier ones.
fn ask_all(text: &[u8], words: &mut [u64], directory: &mut [u64]) -> Result<Written, Refusal>
    ensures { AllAsked text.now (length words.old) (length directory.old) words.new directory.new result }
{
    text_whole::text_asked(text)?;
    reading_full::read_pieces(text, words, directory)
}

// Reads one function, from behind the word `define` to its closing brace: its nodes into the words, its pieces into the directory.
pub fn parse_define(text: &[u8], words: &mut [u64], directory: &mut [u64]) -> Answer
    ensures { left_by result words.new directory.new ≡ reading_of (length words.old) (length directory.old) text.now }
{
    match ask_all(text, words, directory) {
        Ok(all) => {
            clear(words, all.words);
            clear(directory, all.entries * records::ENTRY_WORDS);
            Ok(all.entries)
        }
        // a refused full reading leaves zeros
        Err(r) => {
            wipe(words, directory);
            Err(r)
        }
    }
}

// The re-reading, where questions 1, 2 and 22 do not refuse. "Pieces are kept up to the first that fails": those stay where they are. The first
// pass asks all questions and writes nothing, so a refusal leaves both arrays as they were lent (02: M-113). Then what is kept behind is moved,
// and the second pass writes what stands between.
fn read_again(
    older: &[u8],
    newer: &[u8],
    words: &mut [u64],
    directory: &mut [u64],
    entries: usize,
) -> Reread
    requires newer_value { text_asked newer.now ≡ fine }
    requires given { Given older.now newer.now (length words.old) entries directory.old }
    ensures { left_again result words.new directory.new ≡ rereading_of words.old directory.old entries older.now newer.now }
{
    let a = text_whole::common(older, newer);
    let c = text_whole::common_end(older, newer, a);
    let front = reread_kept::kept_front(newer, a, directory, entries);
    let known = Known {
        end: c,
        words: words.len(),
        entries,
    };
    let plan = reread_passes::first::read_dry(older, newer, directory, known, front)?;
    let behind = plan.behind;
    let end = reread_kept::keep_behind(words, directory, entries, plan.from, behind);
    reread_passes::second::write(newer, words, directory, front, behind);
    let count = behind.number + (entries - plan.from);
    clear(words, end);
    clear(directory, count * records::ENTRY_WORDS);
    Ok(Renewed {
        entries: count,
        first: front.number,
        read: behind.number - front.number,
    })
}

// Reads one function again after an edit, in the arrays that hold the records of the older text, as many entries as are lent: only what the edit
// can have changed is read, and the other pieces are kept. A refused edit leaves both arrays as they were.
pub fn reparse_define(
    older: &[u8],
    newer: &[u8],
    words: &mut [u64],
    directory: &mut [u64],
    entries: usize,
) -> Reread
    ensures { left_again result words.new directory.new ≡ rereading_of words.old directory.old entries older.now newer.now }
{
    text_whole::text_asked(newer)?;
    let old = Older {
        entries,
        words: words.len(),
    };
    if !reread_older::chained(directory, old, older.len()) {
        return Err(Refusal {
            question: records::Q_OLDER,
            place: 0,
        });
    }
    read_again(older, newer, words, directory, entries)
}
