// What ruleshares prints of a stream that is read in pieces (02, R-14): the turns on the bytes that are held, and the bytes that are kept for
// the next piece. The program reads, has a piece processed and writes.
#![tactic(auto)]

ghost use Rattle.std.specs.Prelude.{◌≤◌, min, length, take, is_some, IfSome};
ghost use Rattle.sharing.specs.Streaming.{Processes};
ghost use Rattle.share_stream.specs.Turning.{TakesFirst, left_by, kept_of};

use std::ops::ControlFlow;
use tally::Tally;

// A turn, or turns: the length of their text, and where the bytes behind them begin, if a query may follow.
#[derive(Drop)]
struct Turns {
    made: usize,
    behind: Option<usize>,
}

// A piece that is processed: the length of its text, and how many bytes are kept for the next piece, if a query may follow.
#[derive(Drop)]
pub struct Processed {
    pub made: usize,
    pub kept: Option<usize>,
}

// The turn on the bytes that stand first.
fn first_turn(text: &mut [u8], order: &[u8], bytes: &[u8], tally: &mut Tally) -> Turns
    ensures { TakesFirst order.now tally.old.counts bytes.now text.old text.new result.made tally.new.counts result.behind }
{
    let n = bytes.len();
    let behind = n.min(2);
    let wanted = share_lengths::query_length(&bytes[..behind]);
    let end = n.min(behind + wanted);
    match shares::take_turn(text, order, &bytes[..behind], &bytes[behind..end], tally) {
        ControlFlow::Continue(made) => Turns {
            made,
            behind: Some(end),
        },
        ControlFlow::Break(made) => Turns { made, behind: None },
    }
}

// Turn by turn behind the order list, as long as the text has room for a line and no turn is cut: a length is two bytes, and a query 681 at most.
fn take_turns(text: &mut [u8], held: &[u8], ended: bool, tally: &mut Tally) -> Turns
    requires { 128 ≤ length text.old }
    ensures made_bound { result.made ≤ length text.old }
    ensures held_bound { IfSome result.behind (λ at. (min (length held.now) 8 ≤ at) × (at ≤ length held.now)) }
    ensures processes { Processes tally.old.counts held.now ended (take result.made text.new) tally.new.counts (left_by held.now result.behind) (is_some result.behind) }
{
    let n = held.len();
    let ordered = n.min(8);
    let mut at = ordered;
    let mut made: usize = 0;
    loop {
        if text.len() - made < 128 || held_bytes::must_wait(n - at, ended) {
            return Turns {
                made,
                behind: Some(at),
            };
        }
        let turn = first_turn(&mut text[made..], &held[..ordered], &held[at..], tally);
        let Some(taken) = turn.behind else {
            return Turns {
                made: made + turn.made,
                behind: None,
            };
        };
        at += taken;
        made += turn.made;
    }
}

// A round: the turns on the bytes that are held, the order list first; the bytes that are not taken are left behind it.
pub fn process(text: &mut [u8], held: &mut [u8], ended: bool, tally: &mut Tally) -> Processed
    requires { 128 ≤ length text.old }
    ensures made_bound { result.made ≤ length text.old }
    ensures kept_in_bounds { IfSome result.kept (λ kept. kept ≤ length held.old) }
    ensures processes { Processes tally.old.counts held.old ended (take result.made text.new) tally.new.counts (kept_of held.new result.kept) (is_some result.kept) }
{
    let turns = take_turns(text, held, ended, tally);
    let Some(at) = turns.behind else {
        return Processed {
            made: turns.made,
            kept: None,
        };
    };
    Processed {
        made: turns.made,
        kept: Some(held_bytes::keep(held, at)),
    }
}
