// Writing into a buffer that may be too short.
ghost use Rattle.std.specs.Prelude.{◌≡◌, set};

// Writes a value at a place of the buffer. A place behind the buffer takes nothing.
pub fn store<T: Copy>(buffer: &mut [T], at: usize, value: T)
    ensures { buffer.new ≡ set buffer.old at value }
{
    if at < buffer.len() {
        buffer[at] = value;
    }
}
