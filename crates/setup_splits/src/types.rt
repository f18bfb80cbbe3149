// How code hands the answer of a row on.
use port::types::Effect;
use rules::verdict::Verdict;

// What the row does to the state, the verdict, and `len` bytes. They stand in an array, the longest answer's: there is no heap.
#[derive(Clone, Copy)]
pub struct Control {
    pub effect: Effect,
    pub verdict: Verdict,
    pub len: usize,
    pub bytes: [u8; 24],
}
