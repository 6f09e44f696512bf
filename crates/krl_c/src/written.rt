//! Text that is written to a buffer as snprintf writes it.

ghost use Rattle.std.specs.Prelude.{◌≡◌, ◌++◌, ◌<◌, length};
ghost use Rattle.krl_c.specs.Written.{written};

// Writes two pieces of text, truncated if the buffer is full, and a zero byte. Returns the length
// of the whole text in bytes.
pub(crate) fn write(head: &[u8], tail: &[u8], buffer: &mut [u8]) -> usize
    ensures length { result ≡ length (head.now ++ tail.now) }
    ensures written { buffer.new ≡ written (head.now ++ tail.now) buffer.old }
{
    let length = head.len() + tail.len();
    if buffer.is_empty() {
        return length;
    }
    let count = head.len().min(buffer.len() - 1);
    buffer[..count].copy_from_slice(&head[..count]);
    end_with(tail, &mut buffer[count..]);
    length
}

// Writes the last piece and a zero byte. There is room for the zero byte.
fn end_with(text: &[u8], buffer: &mut [u8])
    requires { 0 < length buffer.old }
    ensures { buffer.new ≡ written text.now buffer.old }
{
    let count = text.len().min(buffer.len() - 1);
    buffer[..count].copy_from_slice(&text[..count]);
    buffer[count] = 0;
}
