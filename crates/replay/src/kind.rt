// The kinds of question, one for each search, in the order of the report's rows.
#[derive(Clone, Copy)]
pub enum Kind {
    Regions,
    Keyword,
    Byte,
    Needle,
    NextWord,
    Split,
    Requote,
    RequotedLength,
    Unterminated,
    Handler,
}

// A letter that stands for no search.
#[derive(Clone, Copy)]
pub struct UnknownLetter;

impl TryFrom<u8> for Kind {
    type Error = UnknownLetter;

    fn try_from(letter: u8) -> Result<Kind, UnknownLetter> {
        match letter {
            b'm' => Ok(Kind::Regions),
            b'k' => Ok(Kind::Keyword),
            b'b' => Ok(Kind::Byte),
            b's' => Ok(Kind::Needle),
            b'w' => Ok(Kind::NextWord),
            b'p' => Ok(Kind::Split),
            b'q' => Ok(Kind::Requote),
            b'n' => Ok(Kind::RequotedLength),
            b'u' => Ok(Kind::Unterminated),
            b'h' => Ok(Kind::Handler),
            _ => Err(UnknownLetter),
        }
    }
}
