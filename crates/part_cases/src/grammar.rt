//! PDUs of the grammar that all applications share (IEEE Std 802.1Q-2018, 10.8), written and read.
//! Many broken ones, cut at every length, are the files of examples/pdus/.

use mrpdu_codec::{
    AppForm, DecodeErr, Message, Pdu, VectorAttr, decode, encode, number_in, put_number, size_of,
    well_formed,
};
use srp_base::{MrpEvent, NoMemory, Seq};
use std::alloc::Global;

/// What a vector has, and the type of its Message.
#[derive(Clone, Copy)]
struct Row<'a> {
    kind: u8,
    leave_all: bool,
    first: &'a [u8],
    events: &'a [MrpEvent],
    params: &'a [u8],
}

/// Whether a vector is that of a row.
fn is_vector(vector: &VectorAttr, row: &Row<'_>) -> bool {
    vector.leave_all == row.leave_all
        && vector.first.as_slice() == row.first
        && vector.events.as_slice() == row.events
        && vector.params.as_slice() == row.params
}

/// Whether a Message has the vector of a row alone.
fn is_message(message: &Message, row: &Row<'_>) -> bool {
    match message.vectors.as_slice() {
        [vector] => message.kind == row.kind && is_vector(vector, row),
        _ => false,
    }
}

/// Whether a PDU has the Message of a row alone.
fn is_one_message(pdu: &Pdu, row: &Row<'_>) -> bool {
    match pdu.messages.as_slice() {
        [message] => pdu.version == 0 && is_message(message, row),
        _ => false,
    }
}

const VID: [u8; 12] = [0, 1, 2, 0, 1, 0, 2, 0x6c, 0, 0, 0, 0];

const LISTENER: [u8; 21] = [
    0, 3, 8, 0, 14, 0, 1, 2, 0, 0, 0, 0, 1, 0, 1, 0x6c, 0x80, 0, 0, 0, 0,
];

const ADDRESSES: [u8; 17] = [0, 2, 6, 0x20, 4, 1, 2, 3, 4, 5, 6, 32, 144, 0, 0, 0, 0];

const TWO_VECTORS: [u8; 17] = [0, 1, 2, 0x20, 1, 0, 5, 0x6c, 0, 2, 0, 9, 0x7e, 0, 0, 0, 0];

const TWO_MESSAGES: [u8; 24] = [
    0, 1, 1, 0, 1, 1, 0x24, 0, 0, 2, 6, 0, 1, 1, 0x80, 0xc2, 0, 0, 0x21, 0x6c, 0, 0, 0, 0,
];

/// What octets read as.
fn read(alloc: Global, form: AppForm, octets: &[u8]) -> Option<Pdu> {
    if octets.len() <= 1500 {
        decode(alloc, form, octets).ok()
    } else {
        None
    }
}

/// Whether octets are a 9 and these.
fn are_behind_9(written: &[u8], octets: &[u8]) -> bool {
    match written {
        [9, rest @ ..] => rest == octets,
        _ => false,
    }
}

/// Whether it is written as these octets, behind what was there.
fn writes(alloc: Global, form: AppForm, pdu: &Pdu, octets: &[u8]) -> Result<bool, NoMemory> {
    if !well_formed(form, pdu) {
        return Ok(false);
    }
    let mut out = [9].to_vec(alloc)?;
    encode(form, pdu, &mut out)?;
    Ok(are_behind_9(out.as_slice(), octets))
}

/// Whether a PDU has a LeaveAll or none, and is written as these octets.
fn is_spelled(alloc: Global, form: AppForm, pdu: &Pdu, leave_all: bool, octets: &[u8]) -> bool {
    pdu.has_leave_all() == leave_all
        && size_of(form, pdu) == octets.len()
        && writes(alloc, form, pdu, octets) == Ok(true)
}

/// Whether octets read as the Message of a row, which is written as they are.
fn spells(alloc: Global, form: AppForm, row: &Row<'_>, octets: &[u8]) -> bool {
    match read(alloc, form, octets) {
        Some(pdu) => {
            is_one_message(&pdu, row) && is_spelled(alloc, form, &pdu, row.leave_all, octets)
        }
        None => false,
    }
}

/// Whether octets break at this place.
fn breaks(alloc: Global, form: AppForm, octets: &[u8], place: u32) -> bool {
    octets.len() <= 1500 && decode(alloc, form, octets) == Err(DecodeErr::Malformed(place))
}

#[test]
fn malformed_at_a_place(rt: HostRuntime) {
    // a packed octet of 216, and a list without its last octet
    let octets = [0, 1, 2, 0, 1, 0, 2, 216, 0, 0, 0, 0];
    assert!(rt; breaks(rt.alloc(), AppForm::Mvrp, &octets, 7));
    assert!(rt; breaks(rt.alloc(), AppForm::Msrp, &LISTENER[..16], 16));
}

fn spells_a_vid(alloc: Global) -> bool {
    let row = Row {
        kind: 1,
        leave_all: false,
        first: &[0, 2],
        events: &[MrpEvent::JoinMt],
        params: &[],
    };
    spells(alloc, AppForm::Mvrp, &row, &VID)
}

fn spells_a_listener(alloc: Global) -> bool {
    let row = Row {
        kind: 3,
        leave_all: false,
        first: &[2, 0, 0, 0, 0, 1, 0, 1],
        events: &[MrpEvent::JoinMt],
        params: &[2],
    };
    spells(alloc, AppForm::Msrp, &row, &LISTENER)
}

fn spells_addresses(alloc: Global) -> bool {
    use MrpEvent::{Lv, New, OnlyIn, OnlyMt};
    let row = Row {
        kind: 2,
        leave_all: true,
        first: &[1, 2, 3, 4, 5, 6],
        events: &[New, Lv, OnlyIn, OnlyMt],
        params: &[],
    };
    spells(alloc, AppForm::Mmrp, &row, &ADDRESSES)
}

#[test]
fn one_vector_is_written_and_read(rt: HostRuntime) {
    assert!(rt; spells_a_vid(rt.alloc()));
    assert!(rt; spells_a_listener(rt.alloc()));
    assert!(rt; spells_addresses(rt.alloc()));
}

/// A list of one item.
fn alone<T: Drop>(alloc: Global, item: T) -> Result<Seq<T>, NoMemory> {
    let mut list = Seq::new(alloc);
    list.push(item)?;
    Ok(list)
}

/// The vector of a VID with no event.
fn without_events(alloc: Global) -> Result<VectorAttr, NoMemory> {
    Ok(VectorAttr {
        leave_all: false,
        first: Seq::from_vec([0, 2].to_vec(alloc)?),
        events: Seq::new(alloc),
        params: Seq::new(alloc),
    })
}

/// A PDU of one Message with this vector.
fn pdu_of(alloc: Global, vector: VectorAttr) -> Result<Pdu, NoMemory> {
    let vectors = alone(alloc, vector)?;
    let messages = alone(alloc, Message { kind: 1, vectors })?;
    Ok(Pdu {
        version: 0,
        messages,
    })
}

/// Whether a PDU is there, and cannot be written in a form.
fn is_refused(form: AppForm, made: Option<Pdu>) -> bool {
    match made {
        Some(pdu) => !well_formed(form, &pdu),
        None => false,
    }
}

fn refuses_no_events(alloc: Global) -> bool {
    match without_events(alloc) {
        Ok(vector) => is_refused(AppForm::Mvrp, pdu_of(alloc, vector).ok()),
        Err(_) => false,
    }
}

#[test]
fn a_pdu_that_cannot_be_written(rt: HostRuntime) {
    // what octets of MVRP read as, in MMRP
    assert!(rt; is_refused(AppForm::Mmrp, read(rt.alloc(), AppForm::Mvrp, &VID)));
    assert!(rt; refuses_no_events(rt.alloc()));
}

/// Whether vectors are one with a LeaveAll, and one without.
fn are_two_vectors(vectors: &[VectorAttr]) -> bool {
    let join = MrpEvent::JoinMt;
    let one = Row {
        kind: 1,
        leave_all: true,
        first: &[0, 5],
        events: &[join],
        params: &[],
    };
    let two = Row {
        kind: 1,
        leave_all: false,
        first: &[0, 9],
        events: &[join, join],
        params: &[],
    };
    match vectors {
        [a, b] => is_vector(a, &one) && is_vector(b, &two),
        _ => false,
    }
}

/// Whether a PDU has one Message, of the two vectors.
fn has_two_vectors(pdu: &Pdu) -> bool {
    match pdu.messages.as_slice() {
        [message] => message.kind == 1 && are_two_vectors(message.vectors.as_slice()),
        _ => false,
    }
}

fn spells_two_vectors(alloc: Global) -> bool {
    match read(alloc, AppForm::Mvrp, &TWO_VECTORS) {
        Some(pdu) => {
            has_two_vectors(&pdu) && is_spelled(alloc, AppForm::Mvrp, &pdu, true, &TWO_VECTORS)
        }
        None => false,
    }
}

/// Whether a PDU has two Messages, of a service requirement and of an address.
fn has_two_messages(pdu: &Pdu) -> bool {
    let service = Row {
        kind: 1,
        leave_all: false,
        first: &[1],
        events: &[MrpEvent::JoinIn],
        params: &[],
    };
    let address = Row {
        kind: 2,
        leave_all: false,
        first: &[1, 0x80, 0xc2, 0, 0, 0x21],
        events: &[MrpEvent::JoinMt],
        params: &[],
    };
    match pdu.messages.as_slice() {
        [a, b] => is_message(a, &service) && is_message(b, &address),
        _ => false,
    }
}

/// Whether octets read as this.
fn reads(alloc: Global, form: AppForm, octets: &[u8], want: &Pdu) -> bool {
    match read(alloc, form, octets) {
        Some(pdu) => pdu == *want,
        None => false,
    }
}

/// Whether the two Messages are written and read, and are read without the last EndMark too.
fn spells_two_messages(alloc: Global) -> bool {
    match read(alloc, AppForm::Mmrp, &TWO_MESSAGES) {
        Some(pdu) => {
            has_two_messages(&pdu)
                && is_spelled(alloc, AppForm::Mmrp, &pdu, false, &TWO_MESSAGES)
                && reads(alloc, AppForm::Mmrp, &TWO_MESSAGES[..22], &pdu)
        }
        None => false,
    }
}

#[test]
fn two_vectors_and_two_messages_are_written_and_read(rt: HostRuntime) {
    assert!(rt; spells_two_vectors(rt.alloc()));
    assert!(rt; spells_two_messages(rt.alloc()));
}

/// Whether a number is put behind a 9 as its four octets.
fn puts_four_octets(alloc: Global) -> Result<bool, NoMemory> {
    let mut out = [9].to_vec(alloc)?;
    put_number(&mut out, 0x0102_0304, 4)?;
    Ok(are_behind_9(out.as_slice(), &[1, 2, 3, 4]))
}

#[test]
fn numbers_in_octets(rt: HostRuntime) {
    assert!(rt; puts_four_octets(rt.alloc()) == Ok(true));
    assert!(rt; number_in(&[1, 2, 3, 4]) == 0x0102_0304);
}
