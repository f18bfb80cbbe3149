// The lines in what was read.
ghost use Rattle.std.specs.Prelude.{◌≡◌};
ghost use Rattle.text_put.specs.Pages.{SameBuffer};
ghost use Rattle.unit.specs.Promise.{device_of};
ghost use Rattle.replay.specs.Played.{Puts};
ghost use Rattle.replay.specs.Feed.{first_feed, ended, standing, Ends, Writes, with_room, Passes, Plays};

use crate::line::play;
use port::types::{FULL_SPEED, Setting};
use std::io::Print;
use text_answers::wrong::too_long;
use text_put::Page;
use text_words::seek::split;
use unit::types::Unit;

// The unit; how far the lines in the input are played, and how many bytes of a line wait there for its end. `skipping` says that the start
// of that line was too long to keep, `going` that there is more to read and write. The input itself is lent apart, as it is read into.
#[derive(Clone, Copy)]
pub struct Feed {
    pub unit: Unit,
    pub played: usize,
    pub held: usize,
    pub skipping: bool,
    pub going: bool,
}

// What is left free of the page: more than any answer takes.
const ROOM: usize = 8192;

// Plays a line that has come to its end, if its start was kept.
#[tactic(auto, using(rules::proofs::Choice::at_true, rules::proofs::Choice::at_false), unfolding(crate::specs::Feed::ended))]
fn line_ended(unit: Unit, skipping: bool, line: &[u8], page: &mut Page) -> Unit
    ensures { Puts (ended skipping (device_of unit) line.now) page.old page.new result }
{
    if skipping {
        too_long(page);
        unit
    } else {
        play(unit, line, page)
    }
}

impl Feed {
    // Before the first line.
    pub fn new() -> Self
        ensures { result ≡ first_feed }
    {
        let setting = Setting { packet: FULL_SPEED };
        Feed {
            unit: Unit::new(setting).unit,
            played: 0,
            held: 0,
            skipping: false,
            going: true,
        }
    }

    // Writes the answers out. Where that cannot be done it says so, once, and no more is read.
    pub fn write_out(&mut self, rt: &HostRuntime, page: &mut Page)
        ensures { Writes self.old page.old page.new self.new }
    {
        if rt.stdout().write_all(page.text()).is_err() {
            if self.going {
                let _ = rt.stderr().write_all(
                    b"replay: standard output cannot be written, so no more calls are read\n",
                );
            }
            self.going = false;
        }
        page.clear();
    }

    // Answers a line that has come to its end.
    pub fn end(&mut self, line: &[u8], page: &mut Page)
        ensures { Ends self.old line.now page.old page.new self.new }
    {
        self.unit = line_ended(self.unit, self.skipping, line, page);
        self.skipping = false;
    }

    // Writes the answers out where the page is nearly full.
    #[tactic(auto, using(rules::proofs::Choice::picks))]
    fn make_room(&mut self, rt: &HostRuntime, page: &mut Page)
        ensures stands { standing self.new page.new ≡ with_room (standing self.old page.old) }
        ensures buffer { SameBuffer page.old page.new }
        ensures held { self.new.held ≡ self.old.held }
    {
        if page.room() < ROOM {
            self.write_out(rt, page);
        }
    }

    #[tactic(auto, using(crate::proofs::Feeding::passed))]
    fn end_with_room(&mut self, rt: &HostRuntime, line: &[u8], page: &mut Page)
        ensures { Passes self.old line.now page.old page.new self.new }
    {
        self.make_room(rt, page);
        self.end(line, page);
    }

    // Plays each whole line of what was read.
    pub fn play_lines(&mut self, rt: &HostRuntime, text: &[u8], page: &mut Page)
        ensures { Plays self.old text.now page.old page.new self.new }
    {
        let mut rest = text;
        while let (line, [_newline, behind @ ..]) = split(rest, |b| b == b'\n') {
            self.end_with_room(rt, line, page);
            rest = behind;
        }
        self.played = text.len() - rest.len();
    }
}
