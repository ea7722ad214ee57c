use super::*;
use faults::{Fault, Layer, Refusal};
use piles::filing::compose;
use piles::flags::Flags;
use piles::lengths::Lengths;
use standard::standard;
use std::process::Abort;
use std::test::Fail;

const NO_OCTETS: [u8; 0] = [];

fn set_of(channels: &[u16]) -> ChannelSet {
    let mut set = ChannelSet::new();
    for c in channels {
        let _ = set.add(*c);
    }
    set
}

// What a reading that is refused answers; the set that it was handed has to stand.
fn read_refused<P: Pile>(rt: &impl Abort, pile: &P, contents: &[u8]) -> Result<Refusal, Fail> {
    let before = set_of(&[7, 9]);
    let mut set = before;
    match pile.read(contents, &mut set) {
        Ok(()) => Err(Fail::new("it was read")),
        Err(f) => {
            assert!(rt; set == before);
            Ok(f.refusal())
        }
    }
}

// What a writing that is refused answers; the octets have to stand.
fn write_refused<P: Pile>(
    rt: &impl Abort,
    pile: &P,
    set: &ChannelSet,
    len: usize,
) -> Result<Refusal, Fail> {
    let mut out = [0xA5u8; 130];
    match pile.write(set, len, &mut out) {
        Ok(()) => Err(Fail::new("it was written")),
        Err(f) => {
            assert!(rt; out == [0xA5u8; 130]);
            Ok(f.refusal())
        }
    }
}

fn pile_says(number: u8, place: usize) -> Refusal {
    Refusal {
        number,
        layer: Layer::Pile,
        place,
    }
}

fn wrong_length() -> Refusal {
    Refusal {
        number: 2,
        layer: Layer::Format,
        place: 0,
    }
}

fn twice() -> Beside<BitMap0, BitMap0> {
    Beside {
        first: BitMap0 {},
        second: BitMap0 {},
    }
}

#[test]
fn lowest_and_highest_channel(rt: HostRuntime) {
    let set = set_of(&[1, 124]);
    let mut out = [0xA5u8; 130];
    let map = BitMap0 {};
    assert!(rt; map.write(&set, 16, &mut out).is_ok());
    assert!(rt; out[0..16] == [8, 0, 0, 0, 0, 0, 0, 0, 0, 0, 0, 0, 0, 0, 0, 1]);
    assert!(rt; out[16] == 0xA5 && out[129] == 0xA5);
    let mut back = ChannelSet::new();
    assert!(rt; map.read(&out[0..16], &mut back).is_ok());
    assert!(rt; back == set);
}

#[test]
fn bit_map_0_refuses_in_order(rt: HostRuntime) -> Result<(), Fail> {
    let map = BitMap0 {};
    assert_eq!(rt; read_refused(&rt, &map, &NO_OCTETS)?, wrong_length());
    assert_eq!(rt; read_refused(&rt, &map, &[0x80; 5])?, pile_says(3, 0));
    assert_eq!(rt; read_refused(&rt, &map, &[0x40; 16])?, pile_says(3, 0));
    assert_eq!(rt; read_refused(&rt, &map, &[0; 15])?, wrong_length());
    assert_eq!(rt; read_refused(&rt, &map, &[0x80; 131])?, wrong_length());
    assert_eq!(rt;
        write_refused(&rt, &map, &set_of(&[0]), 16)?,
        pile_says(7, 0)
    );
    assert_eq!(rt;
        write_refused(&rt, &map, &set_of(&[125]), 16)?,
        pile_says(7, 0)
    );
    assert_eq!(rt;
        write_refused(&rt, &map, &set_of(&[1]), 15)?,
        pile_says(7, 0)
    );
    Ok(())
}

#[test]
fn a_shared_claim_refuses_all(rt: HostRuntime) -> Result<(), Fail> {
    let shared = twice();
    assert_eq!(rt; read_refused(&rt, &shared, &NO_OCTETS)?, pile_says(5, 0));
    assert_eq!(rt; read_refused(&rt, &shared, &[0; 16])?, pile_says(5, 0));
    assert_eq!(rt;
        write_refused(&rt, &shared, &set_of(&[1]), 16)?,
        pile_says(5, 0)
    );
    assert!(rt; !shared.claims().has(0));
    Ok(())
}

#[test]
fn a_sharing_pair_claims_nothing(rt: HostRuntime) -> Result<(), Fail> {
    let inner_first = Beside {
        first: twice(),
        second: BitMap0 {},
    };
    assert_eq!(rt;
        read_refused(&rt, &inner_first, &[0x40; 16])?,
        pile_says(3, 0)
    );
    assert_eq!(rt;
        write_refused(&rt, &inner_first, &set_of(&[0]), 16)?,
        pile_says(7, 0)
    );
    let inner_last = Beside {
        first: BitMap0 {},
        second: twice(),
    };
    assert_eq!(rt;
        write_refused(&rt, &inner_last, &set_of(&[0]), 16)?,
        pile_says(5, 0)
    );
    Ok(())
}

#[test]
fn a_licence_names_the_lowest_channel_outside(rt: HostRuntime) -> Result<(), Fail> {
    let licence = Licence {
        allowed: set_of(&[1, 2, 3]),
        pile: BitMap0 {},
    };
    assert_eq!(rt;
        write_refused(&rt, &licence, &set_of(&[2, 5, 7]), 16)?,
        pile_says(6, 5)
    );
    // before the length is looked at
    assert_eq!(rt;
        write_refused(&rt, &licence, &set_of(&[0, 9]), 3)?,
        pile_says(6, 0)
    );
    let mut contents = [0u8; 16];
    contents[15] = 0x12;
    assert_eq!(rt; read_refused(&rt, &licence, &contents)?, pile_says(6, 5));
    assert_eq!(rt; read_refused(&rt, &licence, &[0; 15])?, wrong_length());
    Ok(())
}

#[test]
fn a_maker_refuses_in_its_own_words(rt: HostRuntime) -> Result<(), Fail> {
    let maker = Mute {};
    let read = read_refused(&rt, &maker, &[0; 16])?;
    assert_eq!(rt;
        read,
        Refusal {
            number: 4,
            layer: Layer::Pile,
            place: 5,
        }
    );
    let written = write_refused(&rt, &maker, &set_of(&[1]), 9)?;
    assert_eq!(rt;
        written,
        Refusal {
            number: 6,
            layer: Layer::Volume,
            place: 9,
        }
    );
    let nested = nest(set_of(&[1]));
    assert_eq!(rt; read_refused(&rt, &nested, &[0; 16])?, pile_says(5, 0));
    Ok(())
}

// The octets of a set at the least length from 2 to 130.
fn filed(rt: &impl Abort, channels: &[u16], octets: &[u8]) -> Result<(), Fail> {
    let Some(lengths) = Lengths::between(2, 130) else {
        return Err(Fail::new("no lengths"));
    };
    let flags = Flags {
        extension: false,
        allocation: false,
    };
    let set = set_of(channels);
    let mut out = [0xA5u8; 130];
    let Ok(len) = compose(&standard(), &set, lengths, flags, &mut out) else {
        return Err(Fail::new("it was refused"));
    };
    assert!(rt; len <= 130);
    assert!(rt; &out[0..len] == octets);
    let mut back = ChannelSet::new();
    assert!(rt; standard().read(octets, &mut back).is_ok());
    assert!(rt; back == set);
    Ok(())
}

#[test]
fn the_standard_pile_files_what_was_worked_out(rt: HostRuntime) -> Result<(), Fail> {
    filed(&rt, &[], &[0x80, 0x00])?;
    filed(&rt, &[0], &[0x84, 0x00])?;
    filed(&rt, &[1023], &[0x83, 0xFF])?;
    filed(&rt, &[0, 512], &[0x86, 0x00])?;
    filed(&rt, &[10, 12], &[0x8E, 0x05, 0x20])?;
    filed(&rt, &[10, 20], &[0x8C, 0x05, 0x0A])?;
    filed(&rt, &[3, 1020], &[0x8F, 0xFE, 0x01])?;
    filed(&rt, &[1, 513], &[0x80, 0x01, 0x00, 0x80])
}

#[test]
fn numbers_end_at_the_first_null(rt: HostRuntime) -> Result<(), Fail> {
    let after_null = Refusal {
        number: 4,
        layer: Layer::Format,
        place: 1,
    };
    assert_eq!(rt;
        read_refused(&rt, &standard(), &[0x80, 0, 0, 0x80])?,
        after_null
    );
    // leftover bits do not count
    let mut set = set_of(&[5]);
    assert!(rt; standard().read(&[0x80, 0, 0, 0x1F], &mut set).is_ok());
    assert!(rt; set == ChannelSet::new());
    Ok(())
}

// The example that the standard's annex works out, as it is read.
#[test]
fn the_annex_example_is_read(rt: HostRuntime) {
    let octets = [
        0x80, 0x7A, 0x01, 0x11, 0x73, 0x12, 0xD0, 0x8F, 0x23, 0x53, 0x06, 0x62, 0x1B, 0x68, 0x11,
        0x89,
    ];
    let mut set = ChannelSet::new();
    assert!(rt; standard().read(&octets, &mut set).is_ok());
    let list = set_of(&[
        13, 71, 122, 191, 251, 321, 402, 476, 521, 575, 635, 701, 765, 831, 906, 981,
    ]);
    assert!(rt; set == list);
}
