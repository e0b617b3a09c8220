//! What the application of a station asks for.

ghost use Rattle.std.specs.Prelude.{◌≡◌, ◌∷◌, ◌≤◌, ◌<◌, true, false, vec_capacity, vec_len, IsOk, OnOk, OnErr};
ghost use Rattle.attribute_propagation.specs.Ports.{keys_in, marked_everywhere};
ghost use Rattle.msrp.specs.Part.{key_cmp};
ghost use Rattle.msrp.specs.Settling.{keys_of};
ghost use Rattle.msrp.specs.Side.{is_asked_already, is_talk, same_talker, listens_without, requested_streams, talks_without, with_asks};
ghost use Rattle.msrp.specs.declared.asking.SrpRequest.TheVariants.{Talk, Hush, Listen, Unlisten};

use crate::side::MsrpSide;
use crate::stream::{is_listened, talk_of};
use crate::told::tell_both;
use attribute_propagation::laws::each_port_is_told;
use attribute_propagation::{Dirty, room_everywhere};
use msrp_codec::MsrpKey;
use srp_base::{NoMemory, StreamId, Talker};

/// What the application of a station asks of MSRP (IEEE Std 802.1Q-2018, 35.2.3.1).
#[derive(Clone, Copy, PartialEq, Eq)]
pub enum SrpRequest {
    /// To talk a stream, as this Talker states it. A Talker takes the place of another of its
    /// stream.
    Talk(Talker),
    /// To talk a stream no more.
    Hush(StreamId),
    /// To listen to a stream.
    Listen(StreamId),
    /// To listen to a stream no more.
    Unlisten(StreamId),
}

impl MsrpSide {
    /// Does what the application asks for: it talks a stream or not, and listens to one or not
    /// (IEEE Std 802.1Q-2018, 35.2.3.1). Where that changes what the application has asked for, the
    /// Talker key and the Listener key of the stream await at every link port; where it doesn't,
    /// nothing changes, readiness either, and no memory is taken.
    pub fn request(&mut self, request: SrpRequest) -> Result<(), NoMemory>
        ensures ok { OnOk result (self.new.state ≡ requested_streams request self.old.state) }
        ensures err { OnErr result (self.new.state ≡ self.old.state) }
        // Want of memory comes only where something is to change, and that alone ends readiness.
        ensures none { is_asked_already request self.old.state ≡ true → IsOk result }
        ensures stays { is_asked_already request self.old.state ≡ true → self.new ≡ self.old }
        ensures ready { OnOk result (is_asked_already request self.old.state ≡ false
            → self.new.ready ≡ false) }
    {
        match request {
            SrpRequest::Talk(talker) => self.talk(talker),
            SrpRequest::Hush(stream) => self.hush(stream),
            SrpRequest::Listen(stream) => self.listen(stream),
            SrpRequest::Unlisten(stream) => self.unlisten(stream),
        }
    }

    fn talk(&mut self, talker: Talker) -> Result<(), NoMemory>
        ensures ok { OnOk result (self.new.state ≡ requested_streams (Talk talker) self.old.state) }
        ensures err { OnErr result (self.new.state ≡ self.old.state) }
        ensures none { is_asked_already (Talk talker) self.old.state ≡ true → IsOk result }
        ensures stays { is_asked_already (Talk talker) self.old.state ≡ true → self.new ≡ self.old }
        ensures ready { is_asked_already (Talk talker) self.old.state ≡ false
            → self.new.ready ≡ false }
    {
        if is_talk(talk_of(self.talks.as_slice(), talker.stream), &talker) {
            return Ok(());
        }
        self.put_talk(talker)
    }

    fn hush(&mut self, stream: StreamId) -> Result<(), NoMemory>
        ensures ok { OnOk result (self.new.state ≡ requested_streams (Hush stream) self.old.state) }
        ensures err { OnErr result (self.new.state ≡ self.old.state) }
        ensures none { is_asked_already (Hush stream) self.old.state ≡ true → IsOk result }
        ensures stays { is_asked_already (Hush stream) self.old.state ≡ true → self.new ≡ self.old }
        ensures ready { is_asked_already (Hush stream) self.old.state ≡ false
            → self.new.ready ≡ false }
    {
        if talk_of(self.talks.as_slice(), stream).is_none() {
            return Ok(());
        }
        self.drop_talk(stream)
    }

    fn listen(&mut self, stream: StreamId) -> Result<(), NoMemory>
        ensures ok { OnOk result (self.new.state
            ≡ requested_streams (Listen stream) self.old.state) }
        ensures err { OnErr result (self.new.state ≡ self.old.state) }
        ensures none { is_asked_already (Listen stream) self.old.state ≡ true → IsOk result }
        ensures stays { is_asked_already (Listen stream) self.old.state ≡ true
            → self.new ≡ self.old }
        ensures ready { is_asked_already (Listen stream) self.old.state ≡ false
            → self.new.ready ≡ false }
    {
        if is_listened(self.listens.as_slice(), stream) {
            return Ok(());
        }
        self.put_listen(stream)
    }

    fn unlisten(&mut self, stream: StreamId) -> Result<(), NoMemory>
        ensures ok { OnOk result (self.new.state
            ≡ requested_streams (Unlisten stream) self.old.state) }
        ensures err { OnErr result (self.new.state ≡ self.old.state) }
        ensures none { is_asked_already (Unlisten stream) self.old.state ≡ true → IsOk result }
        ensures stays { is_asked_already (Unlisten stream) self.old.state ≡ true
            → self.new ≡ self.old }
        ensures ready { is_asked_already (Unlisten stream) self.old.state ≡ false
            → self.new.ready ≡ false }
    {
        if !is_listened(self.listens.as_slice(), stream) {
            return Ok(());
        }
        self.drop_listen(stream)
    }

    // The application talks a stream as this Talker states it.
    fn put_talk(&mut self, talker: Talker) -> Result<(), NoMemory>
        ensures ok { OnOk result (self.new.state ≡ with_asks talker.stream
            (talker ∷ talks_without talker.stream self.old.state.talks)
            self.old.state.listens self.old.state) }
        ensures err { OnErr result (self.new.state ≡ self.old.state) }
        ensures ready { self.new.ready ≡ false }
    {
        each_port_is_told::<MsrpKey>();
        self.ready = false;
        self.talks.reserve(1)?;
        both_await(&mut self.awaiting, talker.stream)?;
        put_talker(&mut self.talks, talker);
        Ok(())
    }

    // It talks a stream no more.
    fn drop_talk(&mut self, stream: StreamId) -> Result<(), NoMemory>
        ensures ok { OnOk result (self.new.state
            ≡ with_asks stream (talks_without stream self.old.state.talks)
            self.old.state.listens self.old.state) }
        ensures err { OnErr result (self.new.state ≡ self.old.state) }
        ensures ready { self.new.ready ≡ false }
    {
        each_port_is_told::<MsrpKey>();
        self.ready = false;
        both_await(&mut self.awaiting, stream)?;
        drop_talker(&mut self.talks, stream);
        Ok(())
    }

    // It listens to a stream.
    fn put_listen(&mut self, stream: StreamId) -> Result<(), NoMemory>
        ensures ok { OnOk result (self.new.state
            ≡ with_asks stream self.old.state.talks (stream ∷ self.old.state.listens)
            self.old.state) }
        ensures err { OnErr result (self.new.state ≡ self.old.state) }
        ensures ready { self.new.ready ≡ false }
    {
        each_port_is_told::<MsrpKey>();
        self.ready = false;
        self.listens.reserve(1)?;
        both_await(&mut self.awaiting, stream)?;
        put_first(&mut self.listens, stream);
        Ok(())
    }

    // It listens to a stream no more.
    fn drop_listen(&mut self, stream: StreamId) -> Result<(), NoMemory>
        ensures ok { OnOk result (self.new.state
            ≡ with_asks stream self.old.state.talks
            (listens_without stream self.old.state.listens) self.old.state) }
        ensures err { OnErr result (self.new.state ≡ self.old.state) }
        ensures ready { self.new.ready ≡ false }
    {
        each_port_is_told::<MsrpKey>();
        self.ready = false;
        both_await(&mut self.awaiting, stream)?;
        drop_stream(&mut self.listens, stream);
        Ok(())
    }
}

// Both keys of a stream await at each link port. After want of memory the keys there are as before.
fn both_await(sets: &mut Vec<Dirty<MsrpKey>>, stream: StreamId) -> Result<(), NoMemory>
    ensures ok { OnOk result (keys_in sets.new.items
        ≡ marked_everywhere key_cmp (keys_of stream) (keys_in sets.old.items)) }
    ensures err { OnErr result (keys_in sets.new.items ≡ keys_in sets.old.items) }
{
    room_everywhere(sets, 2)?;
    tell_both(sets, stream);
    Ok(())
}

// Whether the application has this Talker already.
fn is_talk(was: Option<Talker>, talker: &Talker) -> bool
    ensures { result ≡ is_talk was talker.now }
{
    match was {
        Some(was) => is_same(&was, talker),
        None => false,
    }
}

fn is_same(was: &Talker, talker: &Talker) -> bool
    ensures { result ≡ same_talker was.now talker.now }
{
    *was == *talker
}

// Puts a Talker in front, in the place of the one of its stream. There is room for it.
fn put_talker(talks: &mut Vec<Talker>, talker: Talker)
    requires { vec_len talks.old < vec_capacity talks.old }
    ensures { talks.new.items ≡ talker ∷ talks_without talker.stream talks.old.items }
{
    drop_talker(talks, talker.stream);
    put_first(talks, talker);
}

// Puts an element in front. There is room for it.
fn put_first<T: Copy>(list: &mut Vec<T>, first: T)
    requires { vec_len list.old < vec_capacity list.old }
    ensures { list.new.items ≡ first ∷ list.old.items }
{
    match list.insert(0, first) {
        Ok(()) => {}
        Err(_) => unreachable!(),
    }
}

// Takes the Talker of a stream out.
fn drop_talker(talks: &mut Vec<Talker>, stream: StreamId)
    ensures talks { talks.new.items ≡ talks_without stream talks.old.items }
    ensures len { vec_len talks.new ≤ vec_len talks.old }
    ensures capacity { vec_capacity talks.new ≡ vec_capacity talks.old }
{
    talks.retain(|talker| talker.stream != stream);
}

// Takes a stream out.
fn drop_stream(listens: &mut Vec<StreamId>, stream: StreamId)
    ensures { listens.new.items ≡ listens_without stream listens.old.items }
{
    listens.retain(|other| *other != stream);
}
