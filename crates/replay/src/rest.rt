// The part of a line that waits for its end.
ghost use Rattle.std.specs.Prelude.{◌≡◌, length};
ghost use Rattle.std.proofs.Math.Seq.{slice};
ghost use Rattle.replay.specs.Feed.{moved_down, rest_length, holds};

use crate::feed::Feed;
use text_lines::asked::LONGEST;

// The bytes from `from` up to `end` go to the start; hands back how many there are.
fn move_down(input: &mut [u8], from: usize, end: usize) -> usize
    ensures { (input.new ≡ moved_down from end input.old) × (result ≡ length (slice from end input.old)) }
{
    let filled = end.min(input.len());
    if filled <= from {
        return 0;
    }
    input.copy_within(from..filled, 0);
    filled - from
}

impl Feed {
    // Holds what stands behind the lines that were played, at the start of the input; too long a part of a line is dropped.
    #[tactic(auto, using(rules::proofs::Choice::picks))]
    pub fn hold(&mut self, input: &mut [u8], end: usize)
        ensures { (input.new ≡ moved_down self.old.played end input.old)
            × (self.new ≡ holds self.old (rest_length self.old end input.old)) }
    {
        self.held = move_down(input, self.played, end);
        if self.held > LONGEST {
            self.skipping = true;
            self.held = 0;
        }
    }
}
