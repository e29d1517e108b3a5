// How far off a released number may be, whatever the true count is.
ghost use Rattle.std.specs.Prelude.{◌≡◌, Some};
ghost use Rattle.bulletin.specs.Distance.{AllCounted, our_tails};
ghost use Rattle.bulletin.specs.Shares.{heading_text, share_of, share_text, tail_text};

use std::fmt;
use weights::TOTAL;

// Of the draws so many move a number by more than so many places of the ring.
#[derive(Clone, Copy)]
pub struct Tail {
    pub places: u32,
    pub draws: u64,
}

// The table of tails.
const TAILS: [Tail; 4] = [
    Tail {
        places: 5,
        draws: 2_882_304_023_104,
    },
    Tail {
        places: 10,
        draws: 944_473_558_142,
    },
    Tail {
        places: 20,
        draws: 101_412_309_542,
    },
    Tail {
        places: 40,
        draws: 1_169_462_752,
    },
];

// The table of tails: each entry has the draws that move a number by more than its places, whatever the true count.
pub fn tails() -> [Tail; 4]
    ensures table { result ≡ our_tails }
    ensures counted { AllCounted result }
{
    TAILS
}

// The line above the lines of the tails.
pub fn heading() -> &'static str
    ensures { result.now ≡ heading_text }
{
    "each number may be off, whatever the true count:"
}

// So many draws of all draws, with the share that they are in hundredths of a per cent.
#[derive(Clone, Copy)]
pub struct Share {
    pub hundredths: u64,
    pub draws: u64,
    pub all: u64,
}

impl Tail {
    // The share of the draws, to the nearest hundredth of a per cent, halves up. It is at most 10,000 and a half for each draw, so the cast is proved to lose nothing.
    #[tactic(auto, using(weights::proofs::Ours::our_sum))]
    pub fn share(&self) -> Share
        ensures { result ≡ share_of self.now }
    {
        let draws = u128::from(self.draws);
        let all = u128::from(TOTAL);
        let hundredths = (20_000 * draws + all) / (2 * all);
        Share {
            hundredths: hundredths as u64,
            draws: self.draws,
            all: TOTAL,
        }
    }
}

impl fmt::Display for Share {
    ghost output = { λ s. Some (share_text s) };

    fn fmt<W: fmt::Write>(&self, f: &mut fmt::Formatter<W>) -> fmt::Result {
        let whole = self.hundredths / 100;
        let tenth = self.hundredths / 10 % 10;
        let hundredth = self.hundredths % 10;
        let draws = self.draws;
        let all = self.all;
        write!(
            f,
            "{whole}.{tenth}{hundredth} % of the draws ({draws} of {all})"
        )
    }
}

impl fmt::Display for Tail {
    ghost output = { λ t. Some (tail_text t) };

    fn fmt<W: fmt::Write>(&self, f: &mut fmt::Formatter<W>) -> fmt::Result {
        let places = self.places;
        let share = self.share();
        write!(f, "more than {places} off: {share}")
    }
}
