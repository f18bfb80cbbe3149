// The answer to a call that was played.
ghost use Rattle.replay.specs.Played.{Puts, finished, shown};

use text_answers::answer::{put_done, put_told};
use text_put::Page;
use unit::types::{Done, Told, Unit};

// Of a call that is lent no buffer; hands back the unit after it.
pub fn answered(done: Done, page: &mut Page) -> Unit
    ensures { Puts (finished done) page.old page.new result }
{
    put_done(page, done.verdict);
    done.unit
}

// Of a call that was lent this buffer.
pub fn answered_with(told: Told, buffer: &[u8], page: &mut Page) -> Unit
    ensures { Puts (shown told buffer.now) page.old page.new result }
{
    put_told(page, told.verdict, told.len, buffer);
    told.unit
}
