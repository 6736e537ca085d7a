// Pass 5: RAISE.
#![tactic(auto)]

ghost use Rattle.std.specs.Prelude.{◌≡◌, List, ◌+◌, ◌*◌, ◌^◌, ◌≤◌, ◌<◌, length};
ghost use Rattle.spec.specs.Map.{Marked};
ghost use Rattle.spec.specs.Outcome.{Outcome, forget};
ghost use Rattle.spec.specs.Raise.{action_of, raise};
ghost use Rattle.output.specs.Passes.{pass_answer, Leaves, WroteOutcome};
ghost use Rattle.output.specs.Written.{Wrote};
ghost use Rattle.messages.specs.Readings.{raise_front, raising, raised_as, fate_in, FateWithin};

use messages::{RaiseFate, RaiseRead, raise_message, read_raise};
use output::Writer;
use scanner::MappedText;
use spec::{Actions, RaiseType, Refusal};

// What stands ahead of the message, with SQLite's word.
#[tactic(auto, unfolding(messages::specs::Readings::raise_front, spec::specs::Raise::raise_word, spec::specs::Raise::action_name, spec::specs::Bytes::upper, spec::specs::Bytes::is_lower, spec::specs::Bytes::within))]
fn put_front(written: &mut Writer<'_>, word: RaiseType)
    requires { written.old.len + 23 < 2 ^ 63 }
    ensures { Wrote written.old (raise_front word) written.new }
{
    match word {
        RaiseType::Abort => written.put_all(b"SELECT RAISE(ABORT, "),
        RaiseType::Fail => written.put_all(b"SELECT RAISE(FAIL, "),
        RaiseType::Rollback => written.put_all(b"SELECT RAISE(ROLLBACK, "),
    }
}

// `SELECT RAISE(w, m);` with the word w and the message m.
#[tactic(auto, using(crate::proofs::WrittenLaws::front_most))]
fn put_raising(written: &mut Writer<'_>, word: RaiseType, message: &[u8])
    requires { written.old.len + length message.now + 25 < 2 ^ 63 }
    ensures { Wrote written.old (raising word message.now) written.new }
{
    put_front(written, word);
    written.put_all(message);
    written.put_all(b");");
}

// A RAISE with this word and this content. Where it is refused, its clause goes to the front of the output: refusal 5.
#[tactic(auto, using(crate::proofs::WrittenLaws::raising_most, crate::proofs::WrittenLaws::message_written, crate::proofs::WrittenLaws::clause_written))]
fn put_statement(written: &mut Writer<'_>, word: RaiseType, content: &[u8]) -> Result<(), Refusal>
    requires content_bound { written.old.len + length content.now + 25 < 2 ^ 63 }
    requires content_in_bounds { length content.now ≤ length written.old.out.now }
    ensures wrote { (o : Outcome (List Marked)) → forget o ≡ raised_as word content.now → WroteOutcome written.old o written.new result }
    ensures within { written.new.len ≤ written.old.len + length content.now + 25 }
{
    match raise_message(content) {
        Ok(message) => {
            put_raising(written, word, message);
            Ok(())
        }
        Err(clause) => {
            written.restart();
            written.put_all(clause);
            Err(Refusal::UsingClause {
                length: clause.len(),
            })
        }
    }
}

// What becomes of a RAISE at the front of `rest`.
#[tactic(auto, using(output::proofs::OutcomeLaws::none_written, output::proofs::OutcomeLaws::text_written))]
fn put_raise(written: &mut Writer<'_>, rest: &[u8], read: RaiseRead) -> Result<(), Refusal>
    requires rest_bound { written.old.len + length rest.now + 25 < 2 ^ 63 }
    requires rest_in_bounds { length rest.now ≤ length written.old.out.now }
    requires end_in_bounds { read.end ≤ length rest.now }
    requires fate_within { FateWithin read.fate 6 read.end }
    ensures wrote { (o : Outcome (List Marked)) → forget o ≡ fate_in read.fate read.end rest.now → WroteOutcome written.old o written.new result }
    ensures within { written.new.len ≤ written.old.len + 5 * read.end }
{
    match read.fate {
        RaiseFate::Raises { word, content } => put_statement(written, word, content.of(rest)),
        RaiseFate::Dropped => Ok(()),
        RaiseFate::Passed => {
            written.put_all(&rest[..read.end]);
            Ok(())
        }
    }
}

// The text with each RAISE rewritten, dropped or passed; the first refused clause stops it. A function of its own: `?` leaves the loop
// at a refusal, and what the pass answers is then read off the writer in one place.
#[tactic(auto, using(std::proofs::lemmas::List::take_rest, spec::proofs::RefusalBounds::bytes_length, crate::proofs::PassLaws::raise_within, crate::proofs::PassLaws::raise_done, crate::proofs::PassLaws::rest_length, output::proofs::WriterLaws::wrote_length, crate::proofs::RaiseLaws::raise_start, output::proofs::OutcomeLaws::turn_none), unfolding(spec::specs::Lists::is_empty))]
fn put_raises(
    text: &MappedText<'_>,
    actions: Actions,
    written: &mut Writer<'_>,
) -> Result<(), Refusal>
    requires text_len_bound { length text.now ≤ 65536 }
    requires text_in_bounds { length text.now ≤ length written.old.out.now }
    requires text_bound { written.old.len + 5 * length text.now + 25 < 2 ^ 63 }
    ensures { WroteOutcome written.old (raise (action_of actions) text.now) written.new result }
{
    let bytes = text.text();
    let mut from: usize = 0;
    while let Some(at) = text.find_keyword(b"RAISE", from) {
        let rest = &bytes[at..];
        let read = read_raise(rest, actions);
        written.put_all(&bytes[from..at]);
        put_raise(written, rest, read)?;
        // A turn goes on behind what it read.
        from = at + read.end;
    }
    written.put_all(&bytes[from..]);
    Ok(())
}

// The text that pass 5 makes, as far as `out` reaches, or the clause that it refuses, at the front.
#[tactic(auto, using(output::proofs::OutcomeLaws::outcome_ok, output::proofs::OutcomeLaws::outcome_err))]
pub fn transform_raise_statements(
    text: &MappedText<'_>,
    actions: Actions,
    out: &mut [u8],
) -> Result<usize, Refusal>
    requires text_len_bound { length text.now ≤ 65536 }
    requires text_in_bounds { length text.now ≤ length out.old }
    ensures value { result ≡ pass_answer (raise (action_of actions) text.now) }
    ensures leaves { Leaves (raise (action_of actions) text.now) out.old out.new }
{
    let mut written = Writer::new(out);
    put_raises(text, actions, &mut written)?;
    Ok(written.len)
}
