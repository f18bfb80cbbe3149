// Text into a lent buffer. What does not fit is left out: so nothing here is printed by core::fmt, which would hand each caller an error.
#![tactic(auto)]

ghost use Rattle.std.specs.Prelude.{ℕ, ◌≡◌, List, ◌∷◌, [], ◌-◌, ◌%◌, ◌<◌, ◌≤◌, length, take};
ghost use Rattle.text_put.specs.Text.{typed, spelled};
ghost use Rattle.text_put.specs.Pages.{page_of, SameBuffer, Types};
ghost use Rattle.text_put.specs.Numbers.{digit_of, five_digits, zeros_in_front, decimal_text, pair_text, hex_text};

// A lent buffer, and the place where the next byte goes, which may be past its end.
#[derive(Drop)]
pub struct Page<'a> {
    out: &'a mut [u8],
    at: usize,
}

impl<'a> Page<'a> {
    pub fn new(out: &'a mut [u8]) -> Self
        ensures shows { page_of result ≡ (out.old, 0) }
        ensures same_buffer { result.out.ghost_name ≡ out.entry.ghost_name }
    {
        Self::at(out, 0)
    }

    pub fn at(out: &'a mut [u8], at: usize) -> Self
        ensures shows { page_of result ≡ (out.old, at) }
        ensures same_buffer { result.out.ghost_name ≡ out.entry.ghost_name }
    {
        Page { out, at }
    }

    #[tactic(auto, using(crate::proofs::Text::typed_byte_lem, crate::proofs::Text::typed_over))]
    pub fn put_byte(&mut self, byte: u8)
        ensures { Types self.old (byte ∷ []) self.new }
    {
        if self.at < self.out.len() {
            self.out[self.at] = byte;
            self.at += 1;
        }
    }

    #[tactic(auto, using(crate::proofs::Text::typed_none, crate::proofs::Text::typed_more))]
    pub fn put(&mut self, text: &[u8])
        ensures { Types self.old text.now self.new }
    {
        for &byte in text {
            self.put_byte(byte);
        }
    }

    // A text of its own for each byte. The page is over the same buffer as before where the function that puts a byte says so of its own.
    #[tactic(auto, using(crate::proofs::Text::spelled_none, crate::proofs::Text::spelled_more))]
    pub fn spell<F: Fn(&mut Page, u8)>(&mut self, bytes: &[u8], put_one: F)
        ghost spelling: { ℕ → List ℕ }
        requires callable { F.IsAlwaysCallable put_one }
        requires spells { (p : _) (b : ℕ) (q : _) → b < 256 → F.post put_one p b tt q → page_of q.now ≡ typed (page_of p.now) (spelling b) }
        ensures spelt { page_of self.new ≡ typed (page_of self.old) (spelled spelling bytes.now) }
        ensures same_buffer { ((p : _) (b : ℕ) (q : _) → b < 256 → F.post put_one p b tt q → SameBuffer p.now q.now)
            → SameBuffer self.old self.new }
    {
        for &byte in bytes {
            put_one(self, byte);
        }
    }

    // The place where the next byte goes.
    pub fn place(&self) -> usize
        ensures { result ≡ (page_of self.now).1 }
    {
        self.at
    }

    // The bytes in front of the place.
    pub fn text(&self) -> &[u8]
        ensures { result.now ≡ take (page_of self.now).1 (page_of self.now).0 }
    {
        first_part(self.out, self.at)
    }

    // How many bytes still fit.
    pub fn room(&self) -> usize
        ensures { result ≡ length (page_of self.now).0 - (page_of self.now).1 }
    {
        self.out.len().saturating_sub(self.at)
    }

    // The next byte goes there.
    pub fn go_to(&mut self, at: usize)
        ensures goes { page_of self.new ≡ ((page_of self.old).0, at) }
        ensures same_buffer { SameBuffer self.old self.new }
    {
        self.at = at;
    }

    // The next byte goes to the start again.
    pub fn clear(&mut self)
        ensures goes { page_of self.new ≡ ((page_of self.old).0, 0) }
        ensures same_buffer { SameBuffer self.old self.new }
    {
        self.go_to(0);
    }

    pub fn put_decimal(&mut self, n: u16)
        ensures { Types self.old (decimal_text n) self.new }
    {
        self.put(&five_digits(n)[zeros_in_front(n)..]);
    }

    pub fn put_pair(&mut self, byte: u8)
        ensures { Types self.old (pair_text byte) self.new }
    {
        self.put(&pair(byte));
    }

    // The bytes in hex, or `-` where there are none.
    #[tactic(auto, using(crate::proofs::Text::typing), unfolding(crate::specs::Numbers::hex_text))]
    pub fn put_hex(&mut self, bytes: &[u8])
        ensures { Types self.old (hex_text bytes.now) self.new }
    {
        if bytes.is_empty() {
            self.put_byte(b'-');
        } else {
            self.spell(bytes, |page, byte| page.put_pair(byte));
        }
    }
}

// Puts a text into a buffer from a place on, and hands back the place behind it.
pub fn put(out: &mut [u8], at: usize, text: &[u8]) -> usize
    ensures { (out.new, result) ≡ typed (out.old, at) text.now }
{
    let mut page = Page::at(out, at);
    page.put(text);
    page.place()
}

// The digit of a number below 16, in lower case.
#[tactic(auto, using(rules::proofs::Choice::picks), unfolding(crate::specs::Numbers::digit_of))]
fn digit(n: u8) -> u8
    requires { n < 16 }
    ensures { result ≡ digit_of n }
{
    if n < 10 { b'0' + n } else { b'a' + (n - 10) }
}

// The last digit of a number in decimal.
fn last_digit(n: u16) -> u8
    ensures { result ≡ digit_of (n % 10) }
{
    digit((n % 10) as u8)
}

fn five_digits(n: u16) -> [u8; 5]
    ensures { result ≡ five_digits n }
{
    [n / 10000, n / 1000, n / 100, n / 10, n].map(last_digit)
}

#[tactic(auto, using(rules::proofs::Choice::picks), unfolding(crate::specs::Numbers::zeros_in_front))]
fn zeros_in_front(n: u16) -> usize
    ensures { (result ≡ zeros_in_front n) × (result < 5) }
{
    match n {
        0..=9 => 4,
        10..=99 => 3,
        100..=999 => 2,
        1000..=9999 => 1,
        _ => 0,
    }
}

// Two hex digits.
fn pair(byte: u8) -> [u8; 2]
    ensures { result ≡ pair_text byte }
{
    [digit(byte / 16), digit(byte % 16)]
}

// The first n bytes, or all where there are fewer.
pub fn first_part(bytes: &[u8], n: usize) -> &[u8]
    ensures { result.now ≡ take n bytes.now }
{
    bytes.get(..n).unwrap_or(bytes)
}

#[cfg(test)]
mod tests {
    use super::*;

    // Its promise says nothing of the buffer.
    fn put_alone(page: &mut Page, byte: u8)
        ensures { page_of page.new ≡ typed (page_of page.old) (byte ∷ []) }
    {
        page.put_byte(byte);
    }

    // What is said of the text is all that `spell` asks for.
    fn put_each(page: &mut Page, bytes: &[u8])
        ensures { page_of page.new ≡ typed (page_of page.old) (spelled (λ b. b ∷ []) bytes.now) }
    {
        page.spell(bytes, put_alone);
    }

    #[test]
    fn spells_with_no_word_of_the_buffer(rt: HostRuntime) {
        let mut out = [b'.'; 4];
        let mut page = Page::new(&mut out);
        put_each(&mut page, b"ab");
        assert_eq!(rt; page.text(), b"ab".as_slice());
        assert_eq!(rt; page.room(), 2);
    }
}
