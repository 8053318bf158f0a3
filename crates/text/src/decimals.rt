// Numbers in decimal, with no zeros in front. How much room a function needs differs, so that no one fact of it is plainer.
ghost use Rattle.std.specs.Prelude.{◌*◌, length};
ghost use Rattle.text.specs.Text.{decimal_of, field_of, fields_of};
ghost use Rattle.text.specs.Writing.{Room, Wrote};

use crate::writing::Writer;

impl<'a> Writer<'a> {
    // Writes the digits of a number, the highest first.
    #[tactic(auto, using(crate::proofs::DecimalLaws::one_digit, crate::proofs::DecimalLaws::more_digits, crate::proofs::DecimalLaws::wrote_one, crate::proofs::DecimalLaws::wrote_more))]
    fn put_digits(&mut self, n: u64)
        requires { Room self.old (length (decimal_of n)) }
        ensures { Wrote self.old (decimal_of n) (length (decimal_of n)) self.new }
    {
        if n < 10 {
            self.put_byte(b'0' + n as u8);
        } else {
            self.put_digits(n / 10);
            self.put_byte(b'0' + (n % 10) as u8);
        }
    }

    // Writes a number.
    #[tactic(auto, using(crate::proofs::DecimalLaws::decimal_short, crate::proofs::WritingLaws::shorter))]
    pub fn put_decimal(&mut self, n: u64)
        requires { Room self.old 20 }
        ensures { Wrote self.old (decimal_of n) 20 self.new }
    {
        self.put_digits(n);
    }

    // Writes a space and a number.
    #[tactic(auto, using(crate::proofs::WritingLaws::and_then), unfolding(crate::specs::Text::field_of))]
    fn put_field(&mut self, n: u64)
        requires { Room self.old 21 }
        ensures { Wrote self.old (field_of n) 21 self.new }
    {
        self.put_byte(b' ');
        self.put_decimal(n);
    }

    // Writes numbers, each behind a space. One function for this and `put_hex` would need the writer's contract again, for a closure.
    pub fn put_fields(&mut self, numbers: &[u64])
        requires { Room self.old (21 * length numbers.now) }
        ensures { Wrote self.old (fields_of numbers.now) (21 * length numbers.now) self.new }
    {
        for n in numbers {
            self.put_field(*n);
        }
    }
}
