ghost use Rattle.std.specs.Prelude.{◌≡◌};
ghost use Rattle.byte_answers.specs.Answers as spec;

use crate::answer::Answer;
use origin_core::HostText;

/// Writes bytes to the front of a buffer where it has room for all of them, and says how many they are.
pub fn write_out(out: &mut [u8], len: &mut usize, bytes: &[u8]) -> Answer
    ensures { spec.IsWritten bytes.now out.old out.new len.new result }
{
    *len = bytes.len();
    if out.len() < bytes.len() {
        return Answer::NoRoom;
    }
    out[..bytes.len()].copy_from_slice(bytes);
    Answer::Done
}

/// Writes a text to the front of a buffer, or says why there is none.
pub fn tell(out: &mut [u8], len: &mut usize, said: Result<HostText, Answer>) -> Answer
    ensures { spec.IsTold said out.old out.new len.new result }
{
    match said {
        Ok(text) => write_out(out, len, text.as_str().as_bytes()),
        Err(answer) => {
            *len = 0;
            answer
        }
    }
}
