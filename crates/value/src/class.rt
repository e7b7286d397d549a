// Classes of bytes, and what two slices have in common of a class, 16 bytes at once.
ghost use Rattle.std.specs.Prelude.{◌≡◌, ◌-◌, ◌≤◌, length};
ghost use Rattle.value.specs.declared.class.Class.{Class};
ghost use Rattle.value.specs.Plain.{is_plain, is_in, plain_class, same_in, common_in, Common};

// The last plain byte.
pub const LAST: u8 = 0x7e;

// Any byte; or those from the blank to `high` but quote and backslash.
#[derive(Clone, Copy)]
pub struct Class {
    pub any: bool,
    pub high: u8,
}

// Printable ASCII, a type of its own so that the compiler has its class as constants.
#[derive(Clone, Copy)]
pub struct Plain;

pub trait ByteClass: Copy {
    ghost class: { Self → Class };

    fn has(self, b: u8) -> bool
        ensures { result ≡ is_in (class self) b };
}

impl ByteClass for Class {
    ghost class = { λ c. c };

    fn has(self, b: u8) -> bool {
        self.any | is_plain(self.high, b)
    }
}

impl ByteClass for Plain {
    ghost class = { λ c. plain_class };

    fn has(self, b: u8) -> bool {
        is_plain(LAST, b)
    }
}

// Whether a byte is from the blank to `high`, and neither quote nor backslash, which a string literal takes for its own.
pub fn is_plain(high: u8, b: u8) -> bool
    ensures { result ≡ is_plain high b }
{
    (0x20 <= b) & (b <= high) & (b != b'\'') & (b != b'\\')
}

pub fn same_in<C: ByteClass>(class: C, x: u8, y: u8) -> bool
    ensures { result ≡ same_in (C.class class) x y }
{
    class.has(x) & (x == y)
}

// How many bytes both have from their places on.
pub fn both_left<'a>(a: &'a [u8], at: usize, b: &'a [u8], beside: usize) -> usize
    ensures { (result ≤ length a.now - at) × (result ≤ length b.now - beside) }
{
    if a.len() <= at {
        return 0;
    }
    if b.len() <= beside {
        return 0;
    }
    (a.len() - at).min(b.len() - beside)
}

// Whether the 16 bytes from two places on are the same and of the class. All of them are looked at: where no byte ends the loop early, the compiler tests them at once.
fn common_block<'a, C: ByteClass>(
    class: C,
    a: &'a [u8],
    at: usize,
    b: &'a [u8],
    beside: usize,
) -> bool
    requires { (16 ≤ length a.now - at) × (16 ≤ length b.now - beside) }
    ensures { result ≡ common_in (C.class class) a.now at b.now beside 16 }
{
    let mut all = true;
    for i in 0..16 {
        all = all & same_in(class, a[at + i], b[beside + i]);
    }
    all
}

// The blocks of 16 among `limit` bytes that are the same and of the class, up to the first that isn't.
fn common_blocks<'a, C: ByteClass>(
    class: C,
    a: &'a [u8],
    at: usize,
    b: &'a [u8],
    beside: usize,
    limit: usize,
) -> usize
    requires { (limit ≤ length a.now - at) × (limit ≤ length b.now - beside) }
    ensures { (result ≤ limit) × Common (C.class class) a.now at b.now beside result }
{
    let mut n = 0;
    while 16 <= limit - n {
        if !common_block(class, a, at + n, b, beside + n) {
            return n;
        }
        n += 16;
    }
    n
}

// How many bytes from two places on are the same and of the class.
pub fn common_run<'a, C: ByteClass>(
    class: C,
    a: &'a [u8],
    at: usize,
    b: &'a [u8],
    beside: usize,
) -> usize
    ensures { Common (C.class class) a.now at b.now beside result }
{
    let limit = both_left(a, at, b, beside);
    let blocks = common_blocks(class, a, at, b, beside, limit);
    for n in blocks..limit {
        if !same_in(class, a[at + n], b[beside + n]) {
            return n;
        }
    }
    limit
}
