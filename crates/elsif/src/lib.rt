// Pass 2: each live keyword ELSIF becomes ELSEIF.
#![tactic(auto)]

ghost use Rattle.std.specs.Prelude.{◌≡◌, ◌≤◌, length};
ghost use Rattle.std.proofs.lemmas.List.Edits.{sets};
ghost use Rattle.spec.specs.Map.{bytes};
ghost use Rattle.spec.specs.Elsif.{elsif};

use output::Writer;
use scanner::MappedText;

// The rewritten text, as far as `out` reaches; the result is how many bytes it has.
#[tactic(auto, using(crate::proofs::ElsifLaws::within_at, crate::proofs::ElsifLaws::rest_all, crate::proofs::ElsifLaws::rest_last, crate::proofs::ElsifLaws::elsif_turn, output::proofs::WriterLaws::left_start, output::proofs::WriterLaws::left_all, output::proofs::WriterLaws::wrote_front, spec::proofs::RefusalBounds::bytes_length, std::proofs::lemmas::List::take_rest), unfolding(spec::specs::Lists::is_empty))]
pub fn transform_elsif(text: &MappedText<'_>, out: &mut [u8]) -> usize
    requires { length text.now ≤ 65536 }
    ensures value { result ≡ length (bytes (elsif text.now)) }
    ensures out_after { out.new ≡ sets out.old 0 (bytes (elsif text.now)) }
{
    let bytes = text.text();
    let mut written = Writer::new(out);
    let mut from: usize = 0;
    // No walk in common with `raise::put_raises`, which is told in each turn where the next one begins, and may stop: one function of both
    // would be handed the turn as a closure, promise all by it, and be longer than the two loops.
    while let Some(at) = text.find_keyword(b"ELSIF", from) {
        written.put_all(&bytes[from..at]);
        written.put_all(b"ELSEIF");
        // A turn goes on behind what it read.
        from = at + 5;
    }
    written.put_all(&bytes[from..]);
    written.len
}
