// Bytes in lower hex, two digits each.
ghost use Rattle.std.specs.Prelude.{◌≡◌, ◌*◌, ◌<◌, length};
ghost use Rattle.text.specs.Text.{hex_digit, hex_byte, hex_of};
ghost use Rattle.text.specs.Writing.{Room, Wrote};

use crate::writing::Writer;

fn hex_digit(n: u8) -> u8
    requires { n < 16 }
    ensures { result ≡ hex_digit n }
{
    if n < 10 { b'0' + n } else { b'a' + (n - 10) }
}

impl<'a> Writer<'a> {
    fn put_hex_byte(&mut self, byte: u8)
        requires { Room self.old 2 }
        ensures { Wrote self.old (hex_byte byte) 2 self.new }
    {
        self.put_byte(hex_digit(byte / 16));
        self.put_byte(hex_digit(byte % 16));
    }

    // Writes bytes in hex.
    pub fn put_hex(&mut self, bytes: &[u8])
        requires { Room self.old (2 * length bytes.now) }
        ensures { Wrote self.old (hex_of bytes.now) (2 * length bytes.now) self.new }
    {
        for byte in bytes {
            self.put_hex_byte(*byte);
        }
    }
}
