// What calls are answered with.
use crate::calls::{Call, SetCall};
use crate::{asks, texts};
use channels::ChannelSet;
use std::alloc::{AllocError, Global};

fn of_set(heap: Global, call: SetCall, set: ChannelSet) -> Result<String, AllocError> {
    match call {
        SetCall::Add(n) => texts::changed(heap, set, |s| s.add(n)),
        SetCall::Remove(n) => texts::changed(heap, set, |s| s.remove(n)),
        SetCall::Shift(n) => texts::changed(heap, set, |s| s.shift(n)),
        SetCall::Holds(n) => texts::truth(heap, set.holds(n)),
        SetCall::Next(n) => texts::next(heap, set.next_above(n)),
        SetCall::Size => texts::count(heap, set.size()),
    }
}

pub fn answer(heap: Global, call: Call) -> Result<String, AllocError> {
    match call {
        Call::Set(call, set) => of_set(heap, call, set),
        Call::Slots(range, len) => texts::count(heap, packing::slots(range, len)),
        Call::Pile(pile, call) => asks::answer(heap, &pile, &call),
    }
}
