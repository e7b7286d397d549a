// Notes of where the properties' records start: one walk over an instance makes them, and every comparison reads from them.
ghost use Rattle.std.specs.Prelude.{◌≡◌, set};
ghost use Rattle.instance.specs.Noted.{place_noted};

// As many as a table has properties at most.
pub const NOTES: usize = 128;

// Notes a property's place, if there is room for it.
pub(crate) fn note(notes: &mut [usize], number: usize, at: usize)
    ensures { notes.new ≡ set notes.old number at }
{
    if number < notes.len() {
        notes[number] = at;
    }
}

pub fn place_noted(notes: &[usize], number: usize) -> usize
    ensures { result ≡ place_noted notes.now number }
{
    notes.get(number).copied().unwrap_or(0)
}
