// Each call with its words: read, carried out on the unit, and answered. What cannot be read leaves the unit as it was.
#![tactic(auto, unfolding(crate::specs::Play::carried_out))]

ghost use Rattle.std.specs.Prelude.{◌≤◌};
ghost use Rattle.text_lines.specs.Lines.{P, HEX, BUFFER, HH};
ghost use Rattle.text_lines.specs.Lines as Lines;
ghost use Rattle.unit.specs.Promise.{device_of};
ghost use Rattle.replay.specs.Play.{carried_out};
ghost use Rattle.replay.specs.Played.{Puts, Means, polling};

use crate::lent::lend;
use crate::played::answered;
use crate::unread::unread;
use port::types::{STORE, Setting};
use text_answers::overview::{put_more, put_overview};
use text_lines::given::{given_bytes, given_size, given_status};
use text_put::Page;
use text_words::numbers::BYTES;
use unit::types::Unit;

// The buffers that a setup packet and a poll of Interrupt-IN are lent where no length is said.
const CONTROL_BUFFER: usize = 24;

const INTERRUPT_BUFFER: usize = 2;

pub fn power(unit: Unit, word: &[u8], page: &mut Page) -> Unit
    ensures { Puts (carried_out (device_of unit) (P word.now Lines.power)) page.old page.new result }
{
    match given_size(word) {
        Ok(packet) => answered(Unit::new(Setting { packet }), page),
        Err(why) => unread(unit, word, why, page),
    }
}

// A setup packet with the bytes that its word gave.
fn setup_of(unit: Unit, packet: &[u8], length: &[u8], page: &mut Page) -> Unit
    ensures { Puts (carried_out (device_of unit) (BUFFER length.now (Lines.setup packet.now))) page.old page.new result }
{
    lend(unit, length, CONTROL_BUFFER, page, |unit, buffer| {
        unit.setup(packet, buffer)
    })
}

pub fn setup(unit: Unit, word: &[u8], length: &[u8], page: &mut Page) -> Unit
    ensures { Puts (carried_out (device_of unit) (HEX word.now λ s. BUFFER length.now (Lines.setup s))) page.old page.new result }
{
    match given_bytes(word) {
        Ok(packet) => setup_of(unit, packet.as_slice(), length, page),
        Err(why) => unread(unit, word, why, page),
    }
}

pub fn packet_out(unit: Unit, word: &[u8], page: &mut Page) -> Unit
    ensures { Puts (carried_out (device_of unit) (HEX word.now Lines.out)) page.old page.new result }
{
    match given_bytes(word) {
        Ok(packet) => answered(unit.bulk_out(packet.as_slice()), page),
        Err(why) => unread(unit, word, why, page),
    }
}

// The buffer that a poll of Bulk-IN is lent where no length is said: as long as a packet, and no longer than a buffer can be.
fn packet_buffer(unit: &Unit) -> usize
    ensures fits { result ≤ 2048 }
    ensures means { Means (device_of unit.now) result polling }
{
    usize::from(unit.small.port.setting.packet).min(BYTES)
}

pub fn packet_in(unit: Unit, length: &[u8], page: &mut Page) -> Unit
    ensures { Puts (carried_out (device_of unit) (BUFFER length.now Lines.in_poll)) page.old page.new result }
{
    lend(unit, length, packet_buffer(&unit), page, Unit::bulk_in)
}

pub fn packet_interrupt(unit: Unit, length: &[u8], page: &mut Page) -> Unit
    ensures { Puts (carried_out (device_of unit) (BUFFER length.now Lines.in3_poll)) page.old page.new result }
{
    lend(unit, length, INTERRUPT_BUFFER, page, Unit::interrupt_in)
}

pub fn take(unit: Unit, length: &[u8], page: &mut Page) -> Unit
    ensures { Puts (carried_out (device_of unit) (BUFFER length.now Lines.take_into)) page.old page.new result }
{
    lend(unit, length, usize::from(STORE), page, Unit::take)
}

// As packet_out: what a function of both would have to be promised of its call is longer than the two.
pub fn offer(unit: Unit, word: &[u8], page: &mut Page) -> Unit
    ensures { Puts (carried_out (device_of unit) (HEX word.now Lines.offer)) page.old page.new result }
{
    match given_bytes(word) {
        Ok(reply) => answered(unit.offer(reply.as_slice()), page),
        Err(why) => unread(unit, word, why, page),
    }
}

pub fn status(unit: Unit, word: &[u8], page: &mut Page) -> Unit
    ensures { Puts (carried_out (device_of unit) (HH word.now Lines.status)) page.old page.new result }
{
    match given_status(word) {
        Ok(byte) => answered(unit.set_status(byte), page),
        Err(why) => unread(unit, word, why, page),
    }
}

pub fn overview(unit: Unit, page: &mut Page) -> Unit
    ensures { Puts (carried_out (device_of unit) Lines.state) page.old page.new result }
{
    put_overview(page, unit.small, unit.split, unit.remote);
    unit
}

pub fn more(unit: Unit, page: &mut Page) -> Unit
    ensures { Puts (carried_out (device_of unit) Lines.more) page.old page.new result }
{
    put_more(page, unit.small);
    unit
}
