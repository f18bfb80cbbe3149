// The answer to a call that was played.
ghost use Rattle.std.specs.Prelude.{◌≡◌, take};
ghost use Rattle.text_put.specs.Pages.{Types};
ghost use Rattle.text_answers.specs.Answer.{tells_text, verdict_text, done_text, filled, filled_behind, end_text, told_text};

use rules::verdict::Verdict;
use rules::{DONE, TELLS_PULSE, TELLS_TRIGGER};
use text_put::{Page, first_part};

// What a lent buffer is filled with before a call.
pub const FILL: u8 = 0xa5;

#[tactic(auto, using(text_put::proofs::Text::typing), unfolding(crate::specs::Answer::tells_text))]
fn put_tells(page: &mut Page, tells: u8)
    ensures { Types page.old (tells_text tells) page.new }
{
    match tells {
        TELLS_TRIGGER => page.put(b" trigger"),
        TELLS_PULSE => page.put(b" pulse"),
        _ => {}
    }
}

#[tactic(auto, using(text_put::proofs::Text::typing), unfolding(crate::specs::Answer::verdict_text))]
fn put_verdict(page: &mut Page, verdict: Verdict)
    ensures { Types page.old (verdict_text verdict) page.new }
{
    page.put_decimal(u16::from(verdict.number));
    put_tells(page, verdict.tells);
}

// The answer to a call that is lent no buffer.
#[tactic(auto, using(text_put::proofs::Text::typing), unfolding(crate::specs::Answer::done_text))]
pub fn put_done(page: &mut Page, verdict: Verdict)
    ensures { Types page.old (done_text verdict) page.new }
{
    put_verdict(page, verdict);
    page.put_byte(b'\n');
}

// Is each byte as it was filled?
fn is_filled(bytes: &[u8]) -> bool
    ensures { result ≡ filled bytes.now }
{
    bytes.iter().all(|&b| b == FILL)
}

// Is each byte past an answer of `len` bytes as it was filled?
#[tactic(auto, using(crate::proofs::Filled::behind))]
fn is_filled_behind(buffer: &[u8], len: usize) -> bool
    ensures { result ≡ filled_behind buffer.now len }
{
    len <= buffer.len() && is_filled(&buffer[len..])
}

// The end of an answer, with a word where the call has written what it was not to write.
#[tactic(auto, using(text_put::proofs::Text::typing), unfolding(crate::specs::Answer::end_text))]
fn put_end(page: &mut Page, whole: bool)
    ensures { Types page.old (end_text whole) page.new }
{
    if whole {
        page.put_byte(b'\n');
    } else {
        page.put(b" spilled\n");
    }
}

// The answer to a call that was lent a buffer, of which it wrote `len` bytes if it is answered 0.
#[tactic(auto, using(text_put::proofs::Text::typing), unfolding(crate::specs::Answer::told_text))]
pub fn put_told(page: &mut Page, verdict: Verdict, len: usize, buffer: &[u8])
    ensures { Types page.old (told_text verdict len buffer.now) page.new }
{
    put_verdict(page, verdict);
    if verdict.number == DONE {
        page.put_byte(b' ');
        page.put_hex(first_part(buffer, len));
        put_end(page, is_filled_behind(buffer, len));
    } else {
        put_end(page, is_filled(buffer));
    }
}
