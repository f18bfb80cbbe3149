// One line: what it asks for, carried out and answered.
ghost use Rattle.text_put.specs.Pages.{Types};
ghost use Rattle.text_lines.specs.Lines.{row};
ghost use Rattle.text_lines.specs.Asked.{wrong_asked};
ghost use Rattle.unit.specs.Promise.{device_of};
ghost use Rattle.replay.specs.Play.{why_text, carried_out, played};
ghost use Rattle.replay.specs.Played.{Puts};

use crate::calls::{
    more, offer, overview, packet_in, packet_interrupt, packet_out, power, setup, status, take,
};
use crate::played::answered;
use text_answers::wrong::{too_few_words, too_long, too_many_words, unknown_name};
use text_lines::asked::{Wrong, read_line};
use text_lines::names::Name;
use text_put::Page;
use unit::types::Unit;

// A call with the first two words behind its name.
#[tactic(auto, unfolding(crate::specs::Play::carried_out))]
fn called(unit: Unit, name: Name, first: &[u8], second: &[u8], page: &mut Page) -> Unit
    ensures { Puts (carried_out (device_of unit) ((row name).asks first.now second.now))
        page.old page.new result }
{
    match name {
        Name::Power => power(unit, first, page),
        Name::Setup => setup(unit, first, second, page),
        Name::Out => packet_out(unit, first, page),
        Name::In => packet_in(unit, first, page),
        Name::Interrupt => packet_interrupt(unit, first, page),
        Name::Take => take(unit, first, page),
        Name::Offer => offer(unit, first, page),
        Name::Status => status(unit, first, page),
        Name::Local => answered(unit.panel(), page),
        Name::Reset => answered(unit.bus_reset(), page),
        Name::Suspend => answered(unit.suspend(), page),
        Name::State => overview(unit, page),
        Name::More => more(unit, page),
    }
}

// The answer to a line that is wrong.
fn put_wrong(page: &mut Page, wrong: Wrong)
    ensures { Types page.old (why_text (wrong_asked wrong.entry)) page.new }
{
    match wrong {
        Wrong::TooLong => too_long(page),
        Wrong::NoCall(word) => unknown_name(page, word),
        Wrong::TooFew(word) => too_few_words(page, word),
        Wrong::TooMany(word) => too_many_words(page, word),
    }
}

// A line is played, and its answer put on the page.
#[tactic(auto, using(text_put::proofs::Text::typed_none), unfolding(crate::specs::Play::carried_out, crate::specs::Play::played))]
pub fn play(unit: Unit, line: &[u8], page: &mut Page) -> Unit
    ensures { Puts (played (device_of unit) line.now) page.old page.new result }
{
    match read_line(line) {
        Ok(Some(call)) => called(unit, call.name, call.first, call.second, page),
        Ok(None) => unit,
        Err(wrong) => {
            put_wrong(page, wrong);
            unit
        }
    }
}
