// What a poll hands back that leaves the unit where it stands.
use rules::verdict::Verdict;

// Its verdict, and how many bytes of the lent buffer are its packet: what C is told, by a type of a crate that is not below this one.
#[repr(C)]
#[derive(Clone, Copy)]
pub struct Sent {
    pub verdict: Verdict,
    pub len: usize,
}
