// The unit, and what its calls hand back.
use port::types::{Remote, Small, Split};
use rules::verdict::Verdict;

// A unit: its two stores, the small parts, and beside them the split in progress and the remote/local state.
#[derive(Clone, Copy)]
pub struct Unit {
    pub message: [u8; 1024],
    pub reply: [u8; 1024],
    pub small: Small,
    pub split: Split,
    pub remote: Remote,
}

// The unit after a call that writes no lent buffer, with its verdict.
#[derive(Clone, Copy)]
pub struct Done {
    pub unit: Unit,
    pub verdict: Verdict,
}

// The unit after a call that writes a lent buffer: `len` bytes of it, from its start on. What the steps hand back has a state or an effect in
// its place: the definitions have each as a record of its own.
#[derive(Clone, Copy)]
pub struct Told {
    pub unit: Unit,
    pub verdict: Verdict,
    pub len: usize,
}
