// The answer to a word that cannot be read.
ghost use Rattle.text_put.specs.Pages.{Types};
ghost use Rattle.unit.specs.Promise.{device_of};
ghost use Rattle.replay.specs.Play.{unread_text, as_it_was};
ghost use Rattle.replay.specs.Played.{Puts};

use text_answers::wrong::{no_decimal, no_hex_digit, no_status, odd_hex, too_large};
use text_lines::given::Unread;
use text_put::Page;
use unit::types::Unit;

fn put_unread(page: &mut Page, word: &[u8], why: Unread)
    ensures { Types page.old (unread_text word.now why) page.new }
{
    match why {
        Unread::NoDecimal => no_decimal(page, word),
        Unread::Above(most) => too_large(page, word, most),
        Unread::NoHexDigit(byte) => no_hex_digit(page, byte),
        Unread::OddDigits => odd_hex(page, word),
        Unread::NoStatus => no_status(page, word),
    }
}

// The unit is as it was.
pub fn unread(unit: Unit, word: &[u8], why: Unread, page: &mut Page) -> Unit
    ensures { Puts (as_it_was (device_of unit) (unread_text word.now why)) page.old page.new result }
{
    put_unread(page, word, why);
    unit
}
