// The standard pile: the six formats of GSM 04.08 beside one another, in the order in which they are tried.
#![tactic(auto)]

ghost use Rattle.std.specs.Prelude.{◌≡◌};
ghost use Rattle.standard.specs.Standard.{Apart, standard as standard_pile};
ghost use Rattle.standard.specs.Worked.{Worked};

use formats::bitmap0::BitMap0;
use formats::variable::Variable;
use piles::Pile;
use piles::beside::Beside;
use ranges::{Range128, Range256, Range512, Range1024};

pub type From512 = Beside<Range512, Range1024>;

pub type From256 = Beside<Range256, From512>;

pub type From128 = Beside<Range128, From256>;

pub type FromVariable = Beside<Variable, From128>;

pub type Standard = Beside<BitMap0, FromVariable>;

// That no two formats claim an octet in common, and the worked octets: facts that a call brings in; they cost nothing at run time.
fn facts()
    ensures apart { Apart }
    ensures worked { Worked }
{}

pub fn standard() -> Standard
    ensures meaning { ⟦<Standard as Pile>⟧.meaning result ≡ standard_pile }
    ensures apart { Apart }
    ensures worked { Worked }
{
    facts();
    let from_512 = Beside {
        first: Range512 {},
        second: Range1024 {},
    };
    let from_256 = Beside {
        first: Range256 {},
        second: from_512,
    };
    let from_128 = Beside {
        first: Range128 {},
        second: from_256,
    };
    let from_variable = Beside {
        first: Variable {},
        second: from_128,
    };
    Beside {
        first: BitMap0 {},
        second: from_variable,
    }
}
