// Putting bytes into a caller's buffer.
ghost use Rattle.std.specs.Prelude.{◌≡◌, length};
ghost use Rattle.plan.specs.Buffers.{fitted, Puts};

use refusals::refusal::Refusal;

// Puts bytes at the front of a buffer, if it is long enough, and tells their count.
pub(crate) fn put(buffer: &mut [u8], bytes: &[u8]) -> Result<usize, Refusal>
    ensures { Puts (fitted (length buffer.old) bytes.now) buffer.old result buffer.new }
{
    if buffer.len() < bytes.len() {
        return Err(Refusal::BufferTooShort);
    }
    buffer[..bytes.len()].copy_from_slice(bytes);
    Ok(bytes.len())
}
