// Plays calls: reads one a line from standard input, and writes one line for each to standard output.
#![tactic(auto)]

mod calls; // each call with its words
mod feed; // the lines in what was read
mod lent; // the calls that are lent a buffer
mod line; // one line
mod played; // the answer to a call
mod rest; // the part of a line that waits for its end
mod unread; // the answer to a word that cannot be read

ghost use Rattle.text_put.specs.Text.{Within};
ghost use Rattle.text_put.specs.Pages.{page_of};
ghost use Rattle.replay.specs.Feed.{PlaysOut, EndsOut};

use feed::Feed;
use std::io::Read;
use text_put::{Page, first_part};

// How many bytes each of the two buffers has.
const LARGE: usize = 65536;

// Reads what is there into the input behind `held` bytes, and hands back where it ends. Where nothing came, that is `held`.
fn filled(rt: &HostRuntime, input: &mut [u8], held: usize) -> usize {
    match input.get_mut(held..) {
        Some(free) => held + rt.stdin().read(free).unwrap_or(0),
        None => held,
    }
}

// The input is at its end: a last line without a newline counts.
fn last_turn(rt: &HostRuntime, feed: &mut Feed, input: &[u8], page: &mut Page)
    ensures { EndsOut feed.old input.now page.old page.new feed.new }
{
    feed.end(input, page);
    feed.write_out(rt, page);
    feed.going = false;
}

// The lines in what was read are played, and their answers written.
fn some_lines(rt: &HostRuntime, feed: &mut Feed, input: &[u8], page: &mut Page)
    ensures { PlaysOut feed.old input.now page.old page.new feed.new }
{
    feed.play_lines(rt, input, page);
    feed.write_out(rt, page);
}

// One read, with the lines that it brings.
#[tactic(auto, using(crate::proofs::Within::ends_out_within, crate::proofs::Within::plays_out_within))]
fn turn(rt: &HostRuntime, feed: &mut Feed, input: &mut [u8], page: &mut Page)
    ensures { Within (page_of page.new) }
{
    let held = feed.held;
    let end = filled(rt, input, held);
    if end <= held {
        last_turn(rt, feed, first_part(input, held), page);
    } else {
        some_lines(rt, feed, first_part(input, end), page);
        feed.hold(input, end);
    }
}

// A proved loop has to end, and nothing says that the input does: there are more turns than any run uses up.
fn serve(rt: &HostRuntime, input: &mut [u8], page: &mut Page)
    ensures { Within (page_of page.old) → Within (page_of page.new) }
{
    let mut feed = Feed::new();
    for _ in 0..u64::MAX {
        turn(rt, &mut feed, input, page);
        if !feed.going {
            return;
        }
    }
}

// The same, of a page whose place is within its buffer, which `main` has to show; `serve` asks for nothing.
fn serve_within(rt: &HostRuntime, input: &mut [u8], page: &mut Page)
    requires { Within (page_of page.old) }
    ensures { Within (page_of page.new) }
{
    serve(rt, input, page);
}

fn main(rt: HostRuntime) {
    let mut input = [0; LARGE];
    let mut output = [0; LARGE];
    serve_within(&rt, &mut input, &mut Page::new(&mut output));
}
