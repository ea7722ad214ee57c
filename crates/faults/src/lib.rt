// Refusals. A call that says no gives a fault; a fault tells a number, the layer whose rule was broken, and a place.
// Each layer has an enum of its own, and a lower layer's fault travels up whole inside the upper one's.
#![tactic(auto)]

ghost use Rattle.std.specs.Prelude.{◌≡◌, ℕ, Some, None};
ghost use Rattle.faults.specs.declared.Refusal.{Refusal as Told};
ghost use Rattle.faults.specs.Refusals.{refusal, of_set, of_format, of_pile, of_record, of_volume, start_of};
ghost use Rattle.faults.specs.declared.PileFault.TheVariants.{Format as from_format};
ghost use Rattle.faults.specs.declared.RecordFault.TheVariants.{Pile as from_pile};
ghost use Rattle.faults.specs.declared.VolumeFault.TheVariants.{Record as from_record};

// Whose rule was broken.
#[derive(Clone, Copy, PartialEq, Eq, Debug)]
pub enum Layer {
    Set,
    Format,
    Pile,
    Record,
    Volume,
}

// Users are told refusals by their numbers, from 1 to 14, and keep them: `number` is that number, and no enum of kinds.
#[derive(Clone, Copy, PartialEq, Eq, Debug)]
pub struct Refusal {
    pub number: u8,
    pub layer: Layer,
    pub place: usize,
}

// What every fault can be asked.
pub trait Fault {
    ghost told: { Self → Told };

    fn refusal(&self) -> Refusal
        ensures { result ≡ told self.now };

    fn number(&self) -> u8
        ensures { result ≡ (told self.now).number }
    {
        self.refusal().number
    }

    fn layer(&self) -> Layer
        ensures { result ≡ (told self.now).layer }
    {
        self.refusal().layer
    }

    fn place(&self) -> usize
        ensures { result ≡ (told self.now).place }
    {
        self.refusal().place
    }
}

// A channel or a shift over 1023.
#[derive(Clone, Copy, PartialEq, Eq, Debug)]
pub enum SetFault {
    OverRange,
}

// The octets of a list are not as its format has them.
#[derive(Clone, Copy, PartialEq, Eq, Debug)]
pub enum FormatFault {
    // a length that the format has not
    Length,
    // W(i) is null, and a later number is not: the lowest such i
    NumberAfterNull(u16),
}

// What a pile may refuse for.
#[derive(Clone, Copy, PartialEq, Eq, Debug)]
pub enum Cause {
    Length = 2,
    Unclaimed = 3,
    NumberAfterNull = 4,
    SharedClaim = 5,
    OutsideLicence = 6,
    Unwritten = 7,
}

// A pile reads or writes nothing here.
#[derive(Clone, Copy, PartialEq, Eq, Debug)]
pub enum PileFault {
    Format(FormatFault),
    // no format has the first octet
    Unclaimed,
    // two piles beside one another both claim this octet, the lowest such
    SharedClaim(u8),
    // this channel, the lowest such, is not in the licence
    OutsideLicence(u16),
    // there are no octets of this length for the set
    Unwritten,
    // a fault of an equipment maker's own pile, with a layer and a place of its choice
    Maker {
        cause: Cause,
        layer: Layer,
        place: usize,
    },
}

// A record is not one that can be filed, or not one that can be read.
#[derive(Clone, Copy, PartialEq, Eq, Debug)]
pub enum RecordFault {
    Pile(PileFault),
    // a kind that the call does not take, or a limit or flags that the kind has not
    Argument,
    // the area code marks a deleted area: no cell has it
    DeletedArea,
    // an allocation of no channels, of a list of over 64, of channels outside it, or not of its length in octets
    Allocation,
}

// A volume cannot take or give a record here.
#[derive(Clone, Copy, PartialEq, Eq, Debug)]
pub enum VolumeFault {
    // what is wrong with a record, and where the record starts if the volume can tell
    Record {
        start: Option<usize>,
        fault: RecordFault,
    },
    // there is no such record in force; if a record at fault refers to one, where that record starts
    NoneInForce {
        start: Option<usize>,
    },
    // the octets handed over are no volume's area, or fewer than the volume has
    Area,
    // the record that would start here and the end do not fit
    Full {
        start: usize,
    },
    // no record, or not the end record, starts here
    Frame {
        start: usize,
    },
}

// A record's fault with the place where the record starts.
#[derive(Clone, Copy, PartialEq, Eq, Debug)]
pub struct Located {
    pub start: usize,
    pub fault: RecordFault,
}

impl Fault for SetFault {
    ghost told = { of_set };

    fn refusal(&self) -> Refusal {
        match self {
            SetFault::OverRange => refused(1, Layer::Set, 0),
        }
    }
}

impl Fault for FormatFault {
    ghost told = { of_format };

    fn refusal(&self) -> Refusal {
        match self {
            FormatFault::Length => refused(2, Layer::Format, 0),
            FormatFault::NumberAfterNull(i) => refused(4, Layer::Format, *i as usize),
        }
    }
}

impl Fault for PileFault {
    ghost told = { of_pile };

    fn refusal(&self) -> Refusal {
        match self {
            PileFault::Format(f) => f.refusal(),
            PileFault::Unclaimed => refused(3, Layer::Pile, 0),
            PileFault::SharedClaim(octet) => refused(5, Layer::Pile, *octet as usize),
            PileFault::OutsideLicence(channel) => refused(6, Layer::Pile, *channel as usize),
            PileFault::Unwritten => refused(7, Layer::Pile, 0),
            PileFault::Maker {
                cause,
                layer,
                place,
            } => refused(*cause as u8, *layer, *place),
        }
    }
}

impl Fault for RecordFault {
    ghost told = { of_record };

    fn refusal(&self) -> Refusal {
        match self {
            RecordFault::Pile(f) => f.refusal(),
            RecordFault::Argument => refused(8, Layer::Record, 0),
            RecordFault::DeletedArea => refused(9, Layer::Record, 0),
            RecordFault::Allocation => refused(11, Layer::Record, 0),
        }
    }
}

impl Fault for VolumeFault {
    ghost told = { of_volume };

    fn refusal(&self) -> Refusal {
        match self {
            VolumeFault::Record { fault, .. } => fault.refusal(),
            VolumeFault::NoneInForce { .. } => refused(10, Layer::Volume, 0),
            VolumeFault::Area => refused(12, Layer::Volume, 0),
            VolumeFault::Full { start } => refused(13, Layer::Volume, *start),
            VolumeFault::Frame { start } => refused(14, Layer::Volume, *start),
        }
    }
}

impl VolumeFault {
    // Where the record at fault starts, if the refusal says so beside its place.
    pub fn start(&self) -> Option<usize>
        ensures { result ≡ start_of self.now }
    {
        match self {
            VolumeFault::Record { start, .. } | VolumeFault::NoneInForce { start } => *start,
            VolumeFault::Area | VolumeFault::Full { .. } | VolumeFault::Frame { .. } => None,
        }
    }
}

fn refused(number: u8, layer: Layer, place: usize) -> Refusal
    ensures { result ≡ refusal number layer place }
{
    Refusal {
        number,
        layer,
        place,
    }
}

// A format's fault travels up whole.
impl From<FormatFault> for PileFault {
    ghost from_gives = { λ f r. r ≡ from_format f };

    fn from(fault: FormatFault) -> PileFault {
        PileFault::Format(fault)
    }
}

// A pile's fault travels up whole.
impl From<PileFault> for RecordFault {
    ghost from_gives = { λ f r. r ≡ from_pile f };

    fn from(fault: PileFault) -> RecordFault {
        RecordFault::Pile(fault)
    }
}

// A record's fault travels up whole, with the record's start if there is one to add.
impl From<RecordFault> for VolumeFault {
    ghost from_gives = { λ f r. r ≡ from_record None f };

    fn from(fault: RecordFault) -> VolumeFault {
        VolumeFault::Record { start: None, fault }
    }
}

impl From<Located> for VolumeFault {
    ghost from_gives = { λ f r. r ≡ from_record (Some f.start) f.fault };

    fn from(located: Located) -> VolumeFault {
        VolumeFault::Record {
            start: Some(located.start),
            fault: located.fault,
        }
    }
}
