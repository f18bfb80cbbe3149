// What a line asks for.
ghost use Rattle.std.specs.Prelude.{◌≡◌};
ghost use Rattle.text_lines.specs.Lines.{row, called, meaning_of, meaning};
ghost use Rattle.text_lines.specs.Asked.{asked_call, asked_text, asked, call_told, told, call_meant, meant};

use crate::names::{Name, name_of};
use text_words::words::{nth_word, said};

// The most bytes of a line, its newline not counted.
pub const LONGEST: usize = 4096;

// A call, and the first two words behind its name, whether it reads them or not.
#[derive(Clone, Copy)]
pub struct Call<'a> {
    pub name: Name,
    pub first: &'a [u8],
    pub second: &'a [u8],
}

// What is wrong with a line: it is too long, or has a word that is no call's name, or is a name that needs a word behind it, or is one too many.
#[derive(Clone, Copy, Debug, PartialEq, Eq)]
pub enum Wrong<'a> {
    TooLong,
    NoCall(&'a [u8]),
    TooFew(&'a [u8]),
    TooMany(&'a [u8]),
}

// What a text that begins with this name asks for.
#[tactic(auto, using(rules::proofs::Choice::picks), unfolding(crate::specs::Asked::asked_call))]
fn asked_call(text: &[u8], name: Name) -> Result<Call<'_>, Wrong<'_>>
    ensures asks { call_told result ≡ asked_call text.now name }
    ensures means { call_meant result ≡ called text.now (row name) }
{
    let behind = name.words();
    if nth_word(text, behind.least).is_empty() {
        return Err(Wrong::TooFew(nth_word(text, 0)));
    }
    let extra = nth_word(text, behind.most + 1);
    if !extra.is_empty() {
        return Err(Wrong::TooMany(extra));
    }
    Ok(Call {
        name,
        first: nth_word(text, 1),
        second: nth_word(text, 2),
    })
}

// What a line's text asks for.
#[tactic(auto, using(rules::proofs::Choice::picks), unfolding(crate::specs::Asked::asked_text))]
fn asked_text(text: &[u8]) -> Result<Option<Call<'_>>, Wrong<'_>>
    ensures asks { told result ≡ asked_text text.now }
    ensures means { meant result ≡ meaning_of text.now }
{
    let word = nth_word(text, 0);
    if word.is_empty() {
        return Ok(None);
    }
    let name = name_of(word).ok_or(Wrong::NoCall(word))?;
    asked_call(text, name).map(Some)
}

// What a line asks for: a call, or nothing where it has no word.
#[tactic(auto, using(rules::proofs::Choice::picks), unfolding(crate::specs::Asked::asked, crate::specs::Lines::meaning))]
pub fn read_line(line: &[u8]) -> Result<Option<Call<'_>>, Wrong<'_>>
    ensures asks { told result ≡ asked line.now }
    ensures means { meant result ≡ meaning line.now }
{
    if line.len() > LONGEST {
        return Err(Wrong::TooLong);
    }
    asked_text(said(line))
}
