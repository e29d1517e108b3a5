// The ring of decaying weights, and the offset of a draw: the place of the ring that it falls into.
#![tactic(auto)]

ghost use Rattle.std.specs.Prelude.{◌≡◌};
ghost use Rattle.weights.specs.Ring.{our_offset, walked};
ghost use Rattle.weights.specs.Statements.{DecayNear, Falls, Neighbours, OurDraws, OurNumbers};

use table::decaying;

mod table;

// How many places the ring has.
pub const PLACES: u32 = 65_536;

// The sum of all weights: a number below it is a draw.
pub const TOTAL: u64 = 9_895_604_911_578;

// From this distance on all weights are the same.
const LEVEL_FROM: usize = 120;

// The weight from there on.
const LEVEL_WEIGHT: u64 = 4;

// The sum of the weights of the places 120 to 65,416, which all have that weight.
const LEVEL_TOTAL: u64 = 261_188;

// The offset of the draw among these weights laid end to end, or what is left of it past them. The number of a weight is its offset.
fn walk(weights: &[u64], u: u64) -> Result<usize, u64>
    ensures { result ≡ walked weights.now u }
{
    let mut left = u;
    for (j, w) in weights.iter().enumerate() {
        if left < *w {
            return Ok(j);
        }
        left -= *w;
    }
    Err(left)
}

// The offset of a draw, or none for a number that is no draw. Each cast is proved to lose nothing; a `try_from` would refuse what cannot come.
pub fn offset(u: u64) -> Option<u16>
    ensures { result ≡ our_offset u }
{
    if u >= TOTAL {
        return None;
    }
    let table = decaying();
    let rest = match walk(&table[..LEVEL_FROM], u) {
        Ok(place) => return Some(place as u16),
        Err(rest) => rest,
    };
    if rest < LEVEL_TOTAL {
        return Some((LEVEL_FROM as u64 + rest / LEVEL_WEIGHT) as u16);
    }
    // The rising side is the falling one without place 0, from the other end.
    match walk(&table[1..LEVEL_FROM], TOTAL - 1 - u) {
        Ok(steps) => Some((PLACES as usize - 1 - steps) as u16),
        Err(_) => unreachable(),
    }
}

// Of the draws just as many have an offset as its place weighs.
pub fn falls_stands()
    ensures { Falls }
{}

// The neighbours' rule for every decay a/b below 1.
pub fn decay_near_stands()
    ensures { DecayNear }
{}

// Neighbours on our ring have weights a and b with 4a ≤ 5b and 4b ≤ 5a.
pub fn neighbours_stands()
    ensures { Neighbours }
{}

// The places of our ring, where its weights rest, their sum, and the words that are not rejected.
pub fn our_numbers_stands()
    ensures { OurNumbers }
{}

// Where the draws at the edges of its first places fall.
pub fn our_draws_stands()
    ensures { OurDraws }
{}

#[cfg(test)]
mod tests {
    use super::*;

    // Draws all over the ring, at the edges of its first and last places.
    #[test]
    fn offsets(rt: HostRuntime) {
        let cases: [(u64, u16); 10] = [
            (0, 0),
            (1_099_511_627_775, 0),
            (1_099_511_627_776, 1),
            (1_979_120_929_996, 1),
            (1_979_120_929_997, 2),
            (5_497_558_269_675, 32_768),
            (7_749_358_214_158, 65_533),
            (9_015_995_609_356, 65_534),
            (9_015_995_609_357, 65_535),
            (9_895_604_911_577, 65_535),
        ];
        for (u, place) in cases {
            assert_eq!(rt; offset(u), Some(place));
        }
        assert_eq!(rt; offset(TOTAL), None);
        assert_eq!(rt; offset(u64::MAX), None);
    }

    // The first and the last draw of the places where the weights come to rest and leave it.
    #[test]
    fn edges_of_the_level_part(rt: HostRuntime) {
        let cases: [(u64, u64, u16); 10] = [
            (5_497_558_139_078, 5_497_558_139_082, 119),
            (5_497_558_139_083, 5_497_558_139_086, 120),
            (5_497_558_139_087, 5_497_558_139_090, 121),
            (5_497_558_139_091, 5_497_558_139_094, 122),
            (5_497_558_139_095, 5_497_558_139_098, 123),
            (5_497_558_400_255, 5_497_558_400_258, 65_413),
            (5_497_558_400_259, 5_497_558_400_262, 65_414),
            (5_497_558_400_263, 5_497_558_400_266, 65_415),
            (5_497_558_400_267, 5_497_558_400_270, 65_416),
            (5_497_558_400_271, 5_497_558_400_275, 65_417),
        ];
        for (first, last, place) in cases {
            assert_eq!(rt; offset(first), Some(place));
            assert_eq!(rt; offset(last), Some(place));
        }
    }
}
