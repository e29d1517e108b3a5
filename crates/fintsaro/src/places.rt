// How many places of a roll the desk serves.
ghost use Rattle.std.specs.Prelude.{◌≡◌, ◌≤◌};

use roll::MOST_PLACES;
use std::str::FromStr;

// A number of places that the desk can serve.
#[derive(Clone, Copy, Debug, PartialEq, Eq)]
pub struct Places {
    number: usize,
    ghost some: { 1 ≤ number },
    ghost few: { number ≤ 32768 },
}

// A number of places that the desk cannot serve, or a word that spells none.
#[derive(Clone, Copy, Debug, PartialEq, Eq)]
pub struct NotServed;

impl Places {
    // How many are served where nothing else is said.
    pub const USUAL: Places = Places { number: 2_048 };

    // The number.
    pub fn get(self) -> usize
        ensures same { result ≡ self.number }
        ensures some { 1 ≤ result }
        ensures few { result ≤ 32768 }
    {
        self.number
    }
}

impl TryFrom<usize> for Places {
    type Error = NotServed;

    ghost use Rattle.fintsaro.specs.Places.{IsServed};

    ghost try_from_gives = { IsServed };

    fn try_from(number: usize) -> Result<Places, NotServed> {
        if number == 0 || number > MOST_PLACES {
            return Err(NotServed);
        }
        Ok(Places { number })
    }
}

impl FromStr for Places {
    type Err = NotServed;

    ghost use Rattle.fintsaro.specs.Places.{Spells};

    ghost from_str_gives = { Spells };

    fn from_str(word: &str) -> Result<Places, NotServed> {
        let number = word.parse::<usize>().map_err(|_| NotServed)?;
        Places::try_from(number)
    }
}
