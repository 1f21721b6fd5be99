ghost use Rattle.std.specs.Prelude.{◌≡◌, ok_or, option_map};
ghost use Rattle.acl.specs.declared.refusal.Refusal.TheVariants.{BadNumber};
ghost use Rattle.ios.specs.Entries.{network};
ghost use Rattle.ios.specs.Parsing.{family_of, list_number};

use acl::refusal::Refusal;

// Which form the lines of a list have, told by its number.
#[derive(Clone, Copy)]
pub enum Family {
    Standard,
    Extended,
}

// The number of a list, with the form of its lines.
#[derive(Clone, Copy)]
pub struct ListNumber {
    pub number: u16,
    pub family: Family,
}

// The addresses of a side as written: bits under the wildcard are not cleared yet.
#[derive(Clone, Copy)]
pub struct Network {
    pub address: u32,
    pub wildcard: u32,
}

impl Network {
    // One address alone.
    pub(crate) fn host(address: u32) -> Network
        ensures { result ≡ network address 0 }
    {
        Network {
            address,
            wildcard: 0,
        }
    }
}

// The form of a list's lines, told by the range in which its number lies.
impl TryFrom<u16> for Family {
    type Error = Refusal;

    ghost try_from_gives = { λ number r. r ≡ ok_or (family_of number) BadNumber };

    fn try_from(number: u16) -> Result<Family, Refusal> {
        match number {
            1..=99 | 1300..=1999 => Ok(Family::Standard),
            100..=199 | 2000..=2699 => Ok(Family::Extended),
            _ => Err(Refusal::BadNumber),
        }
    }
}

// A list's number with the form of its lines, where the number is one of a list.
impl TryFrom<u16> for ListNumber {
    type Error = Refusal;

    ghost try_from_gives = { λ number r. r ≡ ok_or (option_map (list_number number) (family_of number)) BadNumber };

    fn try_from(number: u16) -> Result<ListNumber, Refusal> {
        let family = Family::try_from(number)?;
        Ok(ListNumber { number, family })
    }
}
