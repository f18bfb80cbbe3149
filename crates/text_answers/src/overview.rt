// The answers to `state` and `more`: the parts of a unit, each on one line.
ghost use Rattle.std.specs.Prelude.{◌≡◌};
ghost use Rattle.text_put.specs.Pages.{Types};
ghost use Rattle.text_answers.specs.Overview.{flag_text, halted_text, remote_text, split_text};
ghost use Rattle.text_answers.specs.Overview.{port_text, halts_text, message_text, reply_text, tags_text, overview_text};
ghost use Rattle.text_answers.specs.Overview.{notify_text, more_text};

use port::types::{OWED, Remote, Small, Split};
use text_put::Page;

// 0 or 1.
#[tactic(auto, using(text_put::proofs::Text::typing), unfolding(crate::specs::Overview::flag_text))]
fn put_flag(page: &mut Page, flag: bool)
    ensures { Types page.old (flag_text flag) page.new }
{
    page.put_byte(if flag { b'1' } else { b'0' });
}

// Four letters each, and no Display: a page leaves out what does not fit.
fn remote_name(remote: Remote) -> [u8; 4]
    ensures { result ≡ remote_text remote }
{
    match remote {
        Remote::Locs => *b"LOCS",
        Remote::Rems => *b"REMS",
        Remote::Lwls => *b"LWLS",
        Remote::Rwls => *b"RWLS",
    }
}

fn put_split(page: &mut Page, split: Split)
    ensures { Types page.old (split_text split) page.new }
{
    match split {
        Split::None => page.put(b" split=none"),
        Split::AbortOut { count: _ } => page.put(b" split=abort-out"),
        Split::AbortIn { count: _ } => page.put(b" split=abort-in"),
        Split::Clear => page.put(b" split=clear"),
    }
}

#[tactic(auto, using(text_put::proofs::Text::typing), unfolding(crate::specs::Overview::halted_text))]
fn put_halted(page: &mut Page, halted: u8)
    ensures { Types page.old (halted_text halted) page.new }
{
    if halted == 1 {
        page.put(b"halted");
    } else {
        page.put(b"running");
    }
}

// The message that Bulk-OUT brings: whole, a part of one, or none.
#[tactic(auto, using(text_put::proofs::Text::typing), unfolding(crate::specs::Overview::message_text))]
fn put_message(page: &mut Page, ready: u8, held: u16, left: u16)
    ensures { Types page.old (message_text ready held left) page.new }
{
    if ready == 1 {
        page.put(b" message=ready:");
        page.put_decimal(held);
    } else if held != 0 {
        page.put(b" message=part:");
        page.put_decimal(held);
    } else if left != 0 {
        page.put(b" message=part:0");
    } else {
        page.put(b" message=none");
    }
}

#[tactic(auto, using(text_put::proofs::Text::typed_then), unfolding(crate::specs::Overview::port_text))]
fn put_port(page: &mut Page, configured: u8, ren: u8, remote: Remote, status: u8)
    ensures { Types page.old (port_text configured ren remote status) page.new }
{
    page.put(b"0 configured=");
    put_flag(page, configured == 1);
    page.put(b" ren=");
    put_flag(page, ren == 1);
    page.put(b" remote=");
    page.put(&remote_name(remote));
    page.put(b" status=");
    page.put_pair(status);
}

#[tactic(auto, using(text_put::proofs::Text::typing), unfolding(crate::specs::Overview::halts_text))]
fn put_halts(page: &mut Page, halted_out: u8, halted_in: u8)
    ensures { Types page.old (halts_text halted_out halted_in) page.new }
{
    page.put(b" out=");
    put_halted(page, halted_out);
    page.put(b" in=");
    put_halted(page, halted_in);
}

#[tactic(auto, using(text_put::proofs::Text::typing), unfolding(crate::specs::Overview::tags_text))]
fn put_tags(page: &mut Page, recent_out: u8, recent_in: u8)
    ensures { Types page.old (tags_text recent_out recent_in) page.new }
{
    page.put(b" tags=");
    page.put_pair(recent_out);
    page.put_byte(b',');
    page.put_pair(recent_in);
}

// The bytes of the reply that have not gone, the split in progress, and whether the empty packet is owed.
#[tactic(auto, using(text_put::proofs::Text::typing), unfolding(crate::specs::Overview::reply_text))]
fn put_reply(page: &mut Page, unsent: u16, split: Split, owed: bool)
    ensures { Types page.old (reply_text unsent split owed) page.new }
{
    page.put(b" reply=");
    page.put_decimal(unsent);
    put_split(page, split);
    page.put(b" owed=");
    put_flag(page, owed);
}

#[tactic(auto, using(text_put::proofs::Text::typing), unfolding(crate::specs::Overview::overview_text))]
pub fn put_overview(page: &mut Page, small: Small, split: Split, remote: Remote)
    ensures { Types page.old (overview_text small split remote) page.new }
{
    put_port(
        page,
        small.port.configured,
        small.port.ren,
        remote,
        small.interrupt.status,
    );
    put_halts(page, small.bulkout.halted, small.bulkin.halted);
    put_message(
        page,
        small.bulkout.message.ready,
        small.bulkout.message.held,
        small.bulkout.transfer.left,
    );
    put_reply(
        page,
        small.bulkin.reply.unsent,
        split,
        small.bulkin.transfer.phase == OWED,
    );
    put_tags(page, small.bulkout.recent, small.bulkin.recent);
    page.put_byte(b'\n');
}

// The packet that waits on Interrupt-IN, by its two bytes.
#[tactic(auto, using(text_put::proofs::Text::typing), unfolding(crate::specs::Overview::notify_text))]
fn put_notify(page: &mut Page, notify1: u8, notify2: u8)
    ensures { Types page.old (notify_text notify1 notify2) page.new }
{
    if notify1 == 0 {
        page.put(b" int=none");
    } else {
        page.put(b" int=");
        page.put_pair(notify1);
        page.put_pair(notify2);
    }
}

#[tactic(auto, using(text_put::proofs::Text::typed_then), unfolding(crate::specs::Overview::more_text))]
pub fn put_more(page: &mut Page, small: Small)
    ensures { Types page.old (more_text small) page.new }
{
    page.put(b"0 p=");
    page.put_decimal(small.port.setting.packet);
    put_notify(
        page,
        small.interrupt.waiting.notify1,
        small.interrupt.waiting.notify2,
    );
    page.put(b" int-endpoint=");
    put_halted(page, small.interrupt.halted);
    page.put_byte(b'\n');
}
