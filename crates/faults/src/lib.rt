// Why a call refuses what it is lent, and which lot it names.
#![tactic(auto)]

mod unlisted;

ghost use Rattle.std.specs.Prelude.{◌≡◌, ◌^◌, ◌<◌};
ghost use Rattle.faults.specs.Numbers.{number};

pub use unlisted::Unlisted;

// The grounds. The documents, the C interface and the programs name each by its number; their texts are in
// include/refusals.txt. `SameLots` is no longer given, and keeps its number from another meaning.
#[derive(Clone, Copy, PartialEq, Eq)]
pub enum Fault {
    NoLots,
    TooManyLots,
    WrongLength,
    WrongRoot,
    NoSuchParent,
    WrongRank,
    Loop,
    NoSheet,
    NoSuchLot,
    NoEdge,
    WouldPassMaxPlace,
    CountTooLarge,
    SameLots,
    TooManyToCheck,
    PassesMaxPlace,
    FileTooShort,
    WrongFileLength,
    ExponentTooLarge,
    ListsDiffer,
    TooManyForSmall,
    WouldPassSmallPlace,
    Held,
    Other(Unlisted),
}

// A ground, and the lot that it names: 0 where it names none.
#[derive(Clone, Copy, PartialEq, Eq)]
pub struct Refusal {
    pub fault: Fault,
    pub lot: u32,
}

impl Fault {
    #[tactic(auto, unfolding(crate::specs::Numbers::number))]
    pub fn number(self) -> u32
        ensures { result ≡ number self }
    {
        match self {
            Fault::NoLots => 1,
            Fault::TooManyLots => 2,
            Fault::WrongLength => 3,
            Fault::WrongRoot => 4,
            Fault::NoSuchParent => 5,
            Fault::WrongRank => 6,
            Fault::Loop => 7,
            Fault::NoSheet => 8,
            Fault::NoSuchLot => 9,
            Fault::NoEdge => 10,
            Fault::WouldPassMaxPlace => 11,
            Fault::CountTooLarge => 12,
            Fault::SameLots => 13,
            Fault::TooManyToCheck => 14,
            Fault::PassesMaxPlace => 15,
            Fault::FileTooShort => 16,
            Fault::WrongFileLength => 17,
            Fault::ExponentTooLarge => 18,
            Fault::ListsDiffer => 19,
            Fault::TooManyForSmall => 20,
            Fault::WouldPassSmallPlace => 21,
            Fault::Held => 22,
            Fault::Other(other) => other.number,
        }
    }

    // The refusal that names this lot, or lot 0 where it names none.
    pub fn at(self, lot: usize) -> Refusal
        requires { lot < 2 ^ 32 }
        ensures { result ≡ record { fault = self; lot = lot } }
    {
        Refusal {
            fault: self,
            lot: lot as u32,
        }
    }
}

// The ground of a number: each of 32 bits is one's.
impl From<u32> for Fault {
    ghost from_gives = { λ n f. number f ≡ n };

    fn from(number: u32) -> Fault {
        match number {
            1 => Fault::NoLots,
            2 => Fault::TooManyLots,
            3 => Fault::WrongLength,
            4 => Fault::WrongRoot,
            5 => Fault::NoSuchParent,
            6 => Fault::WrongRank,
            7 => Fault::Loop,
            8 => Fault::NoSheet,
            9 => Fault::NoSuchLot,
            10 => Fault::NoEdge,
            11 => Fault::WouldPassMaxPlace,
            12 => Fault::CountTooLarge,
            13 => Fault::SameLots,
            14 => Fault::TooManyToCheck,
            15 => Fault::PassesMaxPlace,
            16 => Fault::FileTooShort,
            17 => Fault::WrongFileLength,
            18 => Fault::ExponentTooLarge,
            19 => Fault::ListsDiffer,
            20 => Fault::TooManyForSmall,
            21 => Fault::WouldPassSmallPlace,
            22 => Fault::Held,
            _ => Fault::Other(Unlisted { number }),
        }
    }
}
