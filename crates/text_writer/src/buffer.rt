// Writing into a buffer from a place on. Each function gives the place after what it wrote.
ghost use Rattle.std.specs.Prelude.{[], ◌∷◌};
ghost use Rattle.text_writer.specs.Written.{Written};

pub fn write_byte(out: &mut [u8], at: usize, b: u8) -> usize
    ensures { Written out.old at (b ∷ []) result out.new }
{
    if at < out.len() {
        out[at] = b;
        return at + 1;
    }
    at
}

pub fn write_text(out: &mut [u8], at: usize, text: &[u8]) -> usize
    ensures { Written out.old at text.now result out.new }
{
    let mut place = at;
    for &b in text {
        place = write_byte(out, place, b);
    }
    place
}
