// What piles answer.
use crate::calls::PileCall;
use crate::texts;
use channels::ChannelSet;
use piles::Pile;
use std::alloc::{AllocError, Global};

fn write<P: Pile>(
    heap: Global,
    pile: &P,
    len: usize,
    set: &ChannelSet,
) -> Result<String, AllocError> {
    let mut out = [0; 130];
    match pile.write(set, len, &mut out) {
        Ok(()) => texts::octets(heap, &out[0..len]),
        Err(fault) => texts::refused(heap, &fault),
    }
}

pub fn answer<P: Pile>(heap: Global, pile: &P, call: &PileCall) -> Result<String, AllocError> {
    match call {
        PileCall::Claims => texts::claimed(heap, &pile.claims()),
        PileCall::Read(contents) => {
            texts::changed(
                heap,
                ChannelSet::new(),
                |set| pile.read(contents.as_slice(), set),
            )
        }
        PileCall::Write(len, set) => write(heap, pile, *len, set),
    }
}
