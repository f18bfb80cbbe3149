// The first byte of a kind in a text.
ghost use Rattle.std.specs.Prelude.{◌≡◌, ℕ, ◌≤◌, Bool, length};
ghost use Rattle.text_words.specs.Text.{Tells, is_blank, place, before, since};

#[tactic(auto, using(rules::proofs::Choice::tests), unfolding(crate::specs::Text::is_blank))]
pub fn is_blank(byte: u8) -> bool
    ensures { result ≡ is_blank byte }
{
    matches!(byte, b' ' | b'\t')
}

// The place of the first byte that passes the test, or the end.
pub fn place<F: Fn(u8) -> bool>(text: &[u8], test: F) -> usize
    requires { F.IsAlwaysCallable test }
    ensures value { (t : ℕ → Bool) → Tells t (F.post test) → result ≡ place t text.now }
    ensures within { result ≤ length text.now }
{
    text.iter()
        .position(|byte| test(*byte))
        .unwrap_or(text.len())
}

// All before that byte, and all from it on.
pub fn split<F: Fn(u8) -> bool>(text: &[u8], test: F) -> (&[u8], &[u8])
    requires { F.IsAlwaysCallable test }
    ensures front { (t : ℕ → Bool) → Tells t (F.post test) → result.0.now ≡ before t text.now }
    ensures back { (t : ℕ → Bool) → Tells t (F.post test) → result.1.now ≡ since t text.now }
{
    text.split_at(place(text, test))
}
