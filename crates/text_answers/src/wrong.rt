// The answers to lines that cannot be read: `? ` and what is wrong, in words. A function for each: they differ in nothing but the words.
ghost use Rattle.text_put.specs.Pages.{Types};
ghost use Rattle.text_answers.specs.Wrong.{shown_byte, quoted_text, wrong_text, too_long_text, unknown_name_text, too_few_words_text};
ghost use Rattle.text_answers.specs.Wrong.{too_many_words_text, no_status_text, no_decimal_text, too_large_text, no_hex_digit_text, odd_hex_text};

use text_put::Page;

// The most bytes of a word that are shown.
const SHOWN: usize = 24;

// A byte as it is shown: what cannot be printed is a question mark.
#[tactic(auto, using(text_put::proofs::Text::typing), unfolding(crate::specs::Wrong::shown_byte))]
fn put_shown(page: &mut Page, byte: u8)
    ensures { Types page.old (shown_byte byte) page.new }
{
    match byte {
        b' '..=b'~' => page.put_byte(byte),
        _ => page.put_byte(b'?'),
    }
}

// A word in quotes, cut where it is long.
#[tactic(auto, using(text_put::proofs::Text::typing), unfolding(crate::specs::Wrong::quoted_text))]
fn put_word(page: &mut Page, word: &[u8])
    ensures { Types page.old (quoted_text word.now) page.new }
{
    page.put_byte(b'`');
    if word.len() <= SHOWN {
        page.spell(word, put_shown);
        page.put_byte(b'`');
    } else {
        page.spell(&word[..SHOWN], put_shown);
        page.put(b"..`");
    }
}

// A line that says `? `, a word and what is wrong with it.
#[tactic(auto, using(text_put::proofs::Text::typing), unfolding(crate::specs::Wrong::wrong_text))]
fn put_wrong(page: &mut Page, word: &[u8], wrong: &[u8])
    ensures { Types page.old (wrong_text word.now wrong.now) page.new }
{
    page.put(b"? ");
    put_word(page, word);
    page.put(wrong);
    page.put_byte(b'\n');
}

pub fn too_long(page: &mut Page)
    ensures { Types page.old too_long_text page.new }
{
    page.put(b"? the line has over 4096 bytes and was skipped\n");
}

pub fn unknown_name(page: &mut Page, word: &[u8])
    ensures { Types page.old (unknown_name_text word.now) page.new }
{
    put_wrong(
        page,
        word,
        b" is no call: use power, setup, out, in, in3, take, offer, status, local, reset, suspend, state or more",
    );
}

pub fn too_few_words(page: &mut Page, word: &[u8])
    ensures { Types page.old (too_few_words_text word.now) page.new }
{
    put_wrong(page, word, b" needs a word behind it");
}

pub fn too_many_words(page: &mut Page, word: &[u8])
    ensures { Types page.old (too_many_words_text word.now) page.new }
{
    put_wrong(page, word, b" is a word too many");
}

pub fn no_status(page: &mut Page, word: &[u8])
    ensures { Types page.old (no_status_text word.now) page.new }
{
    put_wrong(page, word, b" is no status byte: give two hex digits");
}

pub fn no_decimal(page: &mut Page, word: &[u8])
    ensures { Types page.old (no_decimal_text word.now) page.new }
{
    put_wrong(page, word, b" is no decimal number");
}

// A number that is too large, with the largest that can be read.
#[tactic(auto, using(text_put::proofs::Text::typed_then), unfolding(crate::specs::Wrong::too_large_text))]
pub fn too_large(page: &mut Page, word: &[u8], most: u16)
    ensures { Types page.old (too_large_text word.now most) page.new }
{
    page.put(b"? ");
    put_word(page, word);
    page.put(b" is too large: give at most ");
    page.put_decimal(most);
    page.put_byte(b'\n');
}

pub fn no_hex_digit(page: &mut Page, byte: u8)
    ensures { Types page.old (no_hex_digit_text byte) page.new }
{
    put_wrong(
        page,
        &[byte],
        b" is no hex digit: give pairs of them, or - for no bytes",
    );
}

pub fn odd_hex(page: &mut Page, word: &[u8])
    ensures { Types page.old (odd_hex_text word.now) page.new }
{
    put_wrong(page, word, b" has an odd number of hex digits");
}
