// The checks that come before anything is written: 1 the text's length, 3 the lent buffers, 2 bytes over 127.
#![tactic(auto)]

ghost use Rattle.std.specs.Prelude.{◌≡◌, Ok};
ghost use Rattle.spec.specs.Answers.{first_high, ascii_check, check_of};

use spec::Refusal;

// The offset of the first byte over 127.
fn first_high(text: &[u8]) -> Option<usize>
    ensures { result ≡ first_high text.now }
{
    text.iter().position(|b| !b.is_ascii())
}

// Refusal 2 if a byte is over 127.
fn check_ascii(text: &[u8]) -> Result<(), Refusal>
    ensures { result ≡ ascii_check (first_high text.now) (Ok tt) }
{
    match first_high(text) {
        Some(i) => Err(Refusal::NotAscii(i)),
        None => Ok(()),
    }
}

// Whether a call may begin: `enough` says that every lent buffer is long enough. The text's bytes come before the needle's.
#[tactic(auto, unfolding(spec::specs::Answers::check_of))]
pub fn check_texts(limit: usize, enough: bool, text: &[u8], needle: &[u8]) -> Result<(), Refusal>
    ensures { result ≡ check_of limit enough text.now needle.now }
{
    if limit < text.len() {
        return Err(Refusal::TextTooLong);
    }
    if !enough {
        return Err(Refusal::BufferTooShort);
    }
    check_ascii(text)?;
    check_ascii(needle)
}
