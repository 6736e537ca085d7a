// A place of a buffer is changed behind a call, so that the answer must be found to differ.
ghost use Rattle.std.specs.Prelude.{◌≡◌};
ghost use Rattle.stored_list.specs.Fault.{changed_at, fault_of, injected};

use crate::fields::field;
use crate::marks::Mark;
use crate::numbers::count;

#[derive(Clone, Copy)]
pub struct Fault {
    // The number of the buffer, and the place in it.
    pub buffer: usize,
    pub place: usize,
}

// The second field of a line names the buffer, the third the place. No buffer has a number or a place as large as what stands
// for a field that is no number.
pub fn fault_of(line: &[u8]) -> Fault
    ensures { result ≡ fault_of line.now }
{
    Fault {
        buffer: count(field(line, 1)),
        place: count(field(line, 2)),
    }
}

// Changes the element at a place, if the buffer reaches so far. By index, and no `get_mut`: tried, and the proof did not close, since
// the library says of it what stands at the place, and nothing of what the buffer holds behind the change.
#[tactic(auto, using(crate::proofs::ChangedLaws::changed_in, crate::proofs::ChangedLaws::changed_out))]
fn change_at<T: Mark>(buffer: &mut [T], place: usize)
    ensures { buffer.new ≡ changed_at T.other place buffer.old }
{
    if place < buffer.len() {
        let before = buffer[place];
        buffer[place] = before.other();
    }
}

// Changes the place, if it is one of the buffer with this number.
pub fn inject<T: Mark>(buffer: &mut [T], own: usize, fault: Option<Fault>)
    ensures { buffer.new ≡ injected T.other own fault buffer.old }
{
    if let Some(fault) = fault {
        if fault.buffer == own {
            change_at(buffer, fault.place);
        }
    }
}
