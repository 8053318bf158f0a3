// Text written into a buffer, piece by piece. Each function asks for the room that it needs, so none can fail, as a `write!` could.
ghost use Rattle.std.specs.Prelude.{◌≡◌, [], ◌∷◌, ◌+◌, ◌≤◌, length, take};
ghost use Rattle.text.specs.Writing.{Wrote, Room};

// A buffer, and the place behind what was written. A slice that shrinks would forget what stands before the place, of which the promises
// speak: the place is plainer.
#[derive(Drop)]
pub struct Writer<'a> {
    pub out: &'a mut [u8],
    pub at: usize,
}

impl<'a> Writer<'a> {
    // A writer at the buffer's start.
    pub fn new(out: &'a mut [u8]) -> Writer<'a>
        ensures buffer { result.out.now ≡ out.old }
        ensures same { result.out.ghost_name ≡ out.entry.ghost_name }
        ensures start { result.at ≡ 0 }
    {
        Writer { out, at: 0 }
    }

    // What was written, and what stood before its start.
    pub fn written(&self) -> &[u8]
        requires { self.now.at ≤ length self.now.out.now }
        ensures { result.now ≡ take self.now.at self.now.out.now }
    {
        let out = &*self.out;
        &out[..self.at]
    }

    // Writes bytes as they are.
    pub fn put_bytes(&mut self, bytes: &[u8])
        requires { Room self.old (length bytes.now) }
        ensures { Wrote self.old bytes.now (length bytes.now) self.new }
    {
        let end = self.at + bytes.len();
        let out = &mut *self.out;
        out[self.at..end].copy_from_slice(bytes);
        self.at = end;
    }

    // Writes one byte.
    pub fn put_byte(&mut self, byte: u8)
        requires { Room self.old 1 }
        ensures { Wrote self.old (byte ∷ []) 1 self.new }
    {
        let out = &mut *self.out;
        out[self.at] = byte;
        self.at += 1;
    }
}
