// What a call answers.
use rules::verdict::Verdict;

// The verdict, and how many bytes of the lent buffer are the answer's.
#[repr(C)]
#[derive(Clone, Copy)]
pub struct TmcAnswer {
    pub verdict: Verdict,
    pub len: usize,
}
