// The calls that are lent a buffer, which is filled before and looked at after.
ghost use Rattle.std.specs.Prelude.{◌≡◌, ◌≤◌};
ghost use Rattle.text_lines.specs.Lines.{BUFFER, lent};
ghost use Rattle.unit.specs.Promise.{device_of};
ghost use Rattle.replay.specs.Play.{carried_out, room};
ghost use Rattle.replay.specs.Played.{Puts, Lending, Makes, Means};

use crate::played::answered_with;
use crate::unread::unread;
use text_answers::answer::FILL;
use text_lines::given::given_length;
use text_put::Page;
use text_words::numbers::BYTES;
use unit::types::{Told, Unit};

// How long a lent buffer is: as long as is said, or the call's own.
fn room(own: usize, said: Option<u16>) -> usize
    ensures { result ≡ room own (lent said) }
{
    said.map_or(own, usize::from)
}

// A call that is lent a buffer, of as many bytes as the word says; where it is missing, of the call's own length.
#[tactic(auto, using(crate::proofs::Rooms::room_fits), unfolding(crate::specs::Play::carried_out))]
pub fn lend<F: FnOnce(Unit, &mut [u8]) -> Told>(
    unit: Unit,
    word: &[u8],
    own: usize,
    page: &mut Page,
    call: F,
) -> Unit
    ghost lending: { Lending }
    requires fits { own ≤ 2048 }
    requires callable { F.IsAlwaysCallable call }
    requires makes { Makes (F.post call) lending.call }
    requires means { Means (device_of unit) own lending }
    ensures { Puts (carried_out (device_of unit) (BUFFER word.now lending.meaning)) page.old page.new result }
{
    let n = match given_length(word) {
        Ok(said) => room(own, said),
        Err(why) => return unread(unit, word, why, page),
    };
    let mut buffer = [FILL; BYTES];
    let lent = &mut buffer[..n];
    let told = call(unit, lent);
    answered_with(told, lent, page)
}
