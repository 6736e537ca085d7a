// The numbers that answers are stored as.
ghost use Rattle.std.specs.Prelude.{◌≡◌};
ghost use Rattle.stored_list.specs.Answers.{of_length, of_found, of_call, of_refusal, FoundGives, AnswerGives, expected};

use crate::fields::{field, number};
use spec::{Accepted, Refusal, RefusalNumbers};

// A refusal's number, or 0; the place; the length of what was found or written; and a count: 1 for a search that found what it
// sought, or a call's records.
#[derive(Clone, Copy, Default, PartialEq)]
pub struct Numbers {
    pub number: usize,
    pub place: usize,
    pub length: usize,
    pub count: usize,
}

// What a search found: where it stands, and its length, which is 0 if what was sought has it already. No `runs::Place`: the `From` of a
// place below makes a type of this crate.
#[derive(Clone, Copy)]
pub struct Found {
    pub place: usize,
    pub length: usize,
}

// Of a search that fills a buffer: the length of what it wrote.
impl From<usize> for Numbers {
    ghost from_gives = { λ length n. n ≡ of_length length };

    fn from(length: usize) -> Numbers {
        Numbers {
            length,
            ..Numbers::default()
        }
    }
}

impl From<usize> for Found {
    ghost from_gives = { λ place found. found ≡ record { place = place; length = 0 } };

    fn from(place: usize) -> Found {
        Found { place, length: 0 }
    }
}

impl From<Found> for Numbers {
    ghost from_gives = { λ found n. n ≡ of_found found };

    fn from(found: Found) -> Numbers {
        Numbers {
            number: 0,
            place: found.place,
            length: found.length,
            count: 1,
        }
    }
}

// Of a search that seeks something.
impl<T: Into<Found>> From<Option<T>> for Numbers {
    ghost from_gives = { λ found n. FoundGives T.converts found n };

    fn from(found: Option<T>) -> Numbers {
        match found {
            Some(found) => found.into().into(),
            None => Numbers::default(),
        }
    }
}

// Of a call.
impl From<Accepted> for Numbers {
    ghost from_gives = { λ accepted n. n ≡ of_call accepted };

    fn from(accepted: Accepted) -> Numbers {
        Numbers {
            length: accepted.length,
            count: accepted.records,
            ..Numbers::default()
        }
    }
}

impl From<Refusal> for Numbers {
    ghost from_gives = { λ refusal n. n ≡ of_refusal refusal };

    fn from(refusal: Refusal) -> Numbers {
        let told = RefusalNumbers::from(refusal);
        Numbers {
            number: told.number as usize,
            place: told.place,
            length: told.length,
            count: 0,
        }
    }
}

impl<T: Into<Numbers>> From<Result<T, Refusal>> for Numbers {
    ghost from_gives = { λ answer n. AnswerGives T.converts answer n };

    fn from(answer: Result<T, Refusal>) -> Numbers {
        match answer {
            Ok(accepted) => accepted.into(),
            Err(refusal) => refusal.into(),
        }
    }
}

// The numbers that a line expects: the number, the place, the length and the count in these fields of it; none if one of
// them is no number.
pub fn expected(line: &[u8], fields: [usize; 4]) -> Option<Numbers>
    ensures { result ≡ expected line.now fields }
{
    Some(Numbers {
        number: number(field(line, fields[0]))?,
        place: number(field(line, fields[1]))?,
        length: number(field(line, fields[2]))?,
        count: number(field(line, fields[3]))?,
    })
}
