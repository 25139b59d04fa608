// The first pass: which pieces are read, and which old ones are kept behind them. All questions are asked, and nothing is written.
ghost use Rattle.std.specs.Prelude.{◌≡◌, ◌+◌};
ghost use Rattle.records.specs.Pieces.{common_end, common};
ghost use Rattle.piece_directory.specs.Olds.{olds_of, FrontIs};
ghost use Rattle.reread_passes.specs.First.{Given, Took, Follows, Ends};

use crate::numbered::piece_dry;
use piece_directory::pieces::{Older, Piece, Size, Spot};
use piece_room::{Lent, ask, room_kept};
use records::Refusal;
use reread_older::{Edit, Found, join_old};

// What the pass goes by, beside texts and directory: the length of the texts' common end, how many words are lent, and how many entries.
#[derive(Clone, Copy)]
pub struct Known {
    pub end: usize,
    pub words: usize,
    pub entries: usize,
}

// How the pass ends: what is read ends there, and the old pieces from that number on are kept behind it.
#[derive(Clone, Copy)]
pub struct Plan {
    pub behind: Spot,
    pub from: usize,
}

// What follows the piece there, which takes so much, where the counter behind it is `behind`: the old pieces from a number on are kept; or more are
// read, and old starts are looked for from a number on, for this piece from `from` on.
fn follow(
    older: &[u8],
    newer: &[u8],
    directory: &[u64],
    known: Known,
    spot: Spot,
    size: Size,
    behind: u64,
    from: usize,
) -> Result<Found, Refusal>
    requires end_value { known.end ≡ common_end older.now newer.now }
    requires given { Given older.now newer.now known.words known.entries directory.now }
    requires took { Took older.now newer.now known.words known.entries directory.now spot.number spot.pos spot.word spot.counter from size.bytes size.words behind }
    ensures { Follows older.now newer.now known.words known.entries directory.now (spot.number + 1) (spot.pos + size.bytes) (spot.word + size.words) behind result }
{
    let lent = Lent {
        words: known.words,
        directory: directory.len(),
    };
    let edit = Edit {
        older: older.len(),
        newer: newer.len(),
        end: known.end,
    };
    let old = Older {
        entries: known.entries,
        words: known.words,
    };
    ask(lent, spot, size)?;
    let next = spot.behind(size, behind);
    match join_old(directory, known.entries, from, edit, next.pos, behind) {
        Err(f) => Ok(Err(f)),
        Ok(f) => {
            room_kept(directory, old, f, next)?;
            Ok(Ok(f))
        }
    }
}

// What follows the pieces kept in front, which end there.
pub fn read_dry(
    older: &[u8],
    newer: &[u8],
    directory: &[u64],
    known: Known,
    front: Spot,
) -> Result<Plan, Refusal>
    requires end_value { known.end ≡ common_end older.now newer.now }
    requires given { Given older.now newer.now known.words known.entries directory.now }
    requires front_is { FrontIs (common older.now newer.now) (olds_of known.entries directory.now) front.number front.pos front.word front.counter }
    ensures { Ends older.now newer.now known.words known.entries directory.now result }
{
    let entries = known.entries;
    let lent = Lent {
        words: known.words,
        directory: directory.len(),
    };
    if front.number == entries {
        return Ok(Plan {
            behind: front,
            from: entries,
        });
    }
    let mut spot = front;
    let mut from: usize = 1;
    loop {
        match piece_dry(newer, spot) {
            Err(r) => {
                return Err(Refusal {
                    question: r.question,
                    place: spot.pos + r.place,
                });
            }
            Ok(Piece::Tail(bytes)) => {
                let size = Size { bytes, words: 0 };
                ask(lent, spot, size)?;
                // nothing stands behind the tail, so this counter numbers nothing
                return Ok(Plan {
                    behind: spot.behind(size, spot.counter),
                    from: entries,
                });
            }
            Ok(Piece::Read(size, counter)) => {
                let found = follow(older, newer, directory, known, spot, size, counter, from)?;
                let next = spot.behind(size, counter);
                match found {
                    Ok(f) => {
                        return Ok(Plan {
                            behind: next,
                            from: f,
                        });
                    }
                    Err(f) => {
                        spot = next;
                        from = f;
                    }
                }
            }
        }
    }
}
