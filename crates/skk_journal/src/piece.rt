ghost use Rattle.std.specs.Prelude.{◌≡◌, ◌+◌, ◌≤◌, ◌<◌, ◌^◌, ◌++◌, ◌∷◌, [], length, take};
ghost use Rattle.skk_journal.specs.Records.{body};

// Puts a record without its gate together, and a closed gate behind it, in the front of the buffer.
#[tactic(auto, unfolding(exact_readers::specs::Numbers::number_bytes))]
pub(crate) fn put_together(buffer: &mut [u8], payload: &[u8])
    requires small { length payload.now < 2 ^ 32 }
    requires room { length payload.now + 5 ≤ length buffer.old }
    ensures { take (length payload.now + 5) buffer.new ≡ body payload.now ++ 0 ∷ [] }
{
    let len = payload.len();
    lay(buffer, 0, &(len as u32).to_le_bytes());
    lay(buffer, 4, payload);
    lay(buffer, len + 4, &[0]);
}

// Lays bytes down at a place, behind what stands there already.
fn lay(buffer: &mut [u8], at: usize, bytes: &[u8])
    requires { at + length bytes.now ≤ length buffer.old }
    ensures { take (at + length bytes.now) buffer.new ≡ take at buffer.old ++ bytes.now }
{
    buffer[at..at + bytes.len()].copy_from_slice(bytes);
}
