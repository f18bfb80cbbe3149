// What a poll that sends comes to.
use port::types::BulkIn;

// The Bulk-IN side behind the packet, and how many bytes the packet has in the lent buffer.
#[derive(Clone, Copy)]
pub struct InPacket {
    pub side: BulkIn,
    pub len: usize,
}
