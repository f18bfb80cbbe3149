// What an answered row comes to but for its bytes, which the lent buffer has.
use port::types::Effect;
use rules::verdict::Verdict;

#[derive(Clone, Copy)]
pub struct Replied {
    pub effect: Effect,
    pub verdict: Verdict,
    pub len: usize,
}
