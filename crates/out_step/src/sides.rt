// What data and headers make of the side of an endpoint. They take the fields of a header one by one, as its definition does: a variant is
// no type of its own.
ghost use Rattle.std.specs.Prelude.{◌≡◌, ℕ, ◌≤◌, min};
ghost use Rattle.port.specs.Parts.{STORE, holding};
ghost use Rattle.port.specs.Out.{absorbed, opened, tagged, requested, CanAbsorb};

use out_outcome::outcome::MOST;
use port::types::{BulkIn, BulkOut, OutMessage, OutTransfer};
use state_parts::parts::{asked_in, closed_out, holding};

// `count` data bytes of the open transfer are here: the last of them completes it.
#[tactic(auto, using(rules::proofs::Choice::picks), unfolding(port::specs::Out::absorbed))]
pub fn absorbed(o: BulkOut, count: usize) -> BulkOut
    requires { CanAbsorb o count }
    ensures { result ≡ absorbed o count }
{
    let n = count as u16;
    let held = o.message.held + n;
    let end = o.transfer.end;
    let left = o.transfer.left;
    if left == n {
        return holding(o, OutMessage { held, ready: end }, closed_out());
    }
    let transfer = OutTransfer {
        left: left - n,
        got: o.transfer.got + n,
        end,
    };
    holding(o, OutMessage { held, ready: 0 }, transfer)
}

pub fn tagged(o: BulkOut, tag: u8) -> BulkOut
    ensures { result ≡ tagged o tag }
{
    BulkOut { recent: tag, ..o }
}

// A DEV_DEP_MSG_OUT header opens a transfer.
pub fn opened(o: BulkOut, tag: u8, size: u16, end: u8) -> BulkOut
    ensures { result ≡ opened o tag size end }
{
    let transfer = OutTransfer {
        left: size,
        got: 0,
        end,
    };
    holding(tagged(o, tag), o.message, transfer)
}

// What is asked for, as much of it as a store can hold.
fn asked(size: u32) -> u16
    ensures { result ≡ min size STORE }
{
    size.min(MOST) as u16
}

// A REQUEST opens a transfer.
pub fn requested(b: BulkIn, tag: u8, size: u32, enabled: u8, term: u8) -> BulkIn
    ensures { result ≡ requested b tag size enabled term }
{
    BulkIn {
        transfer: asked_in(tag, asked(size), enabled, term),
        recent: tag,
        ..b
    }
}
