// A number in decimal digits.
ghost use Rattle.std.specs.Prelude.{◌+◌, ◌<◌, ◌≡◌};
ghost use Rattle.text_writer.specs.Decimal.{decimal};
ghost use Rattle.text_writer.specs.Written.{Written};

use crate::buffer::write_byte;

fn digit_byte(n: usize) -> u8
    requires { n < 10 }
    ensures { result ≡ 48 + n }
{
    b'0' + n as u8
}

// The digits before the last one are those of a tenth of the number.
pub fn write_decimal(out: &mut [u8], at: usize, n: usize) -> usize
    ensures { Written out.old at (decimal n) result out.new }
{
    if n < 10 {
        return write_byte(out, at, digit_byte(n));
    }
    let place = write_decimal(out, at, n / 10);
    write_byte(out, place, digit_byte(n % 10))
}
