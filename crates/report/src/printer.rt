// Lent bytes that a text is printed into, one part behind another.
ghost use Rattle.std.specs.Prelude.{◌≡◌, [], ◌∷◌, ◌<◌, length};
ghost use Rattle.report.specs.Lines as lines;
ghost use Rattle.report.specs.Printed.{Puts};

use itoa::Buffer;

// The bytes, and the place behind what was put. A store past the end of the bytes does nothing.
#[derive(Drop)]
pub struct Printer<'a> {
    pub out: &'a mut [u8],
    pub at: usize,
}

impl<'a> Printer<'a> {
    // Begins at the front of the bytes.
    pub fn new(out: &'a mut [u8]) -> Printer<'a>
        ensures lent { result.out.ghost_name ≡ out.entry.ghost_name }
        ensures bytes { result.out.now ≡ out.old }
        ensures front { result.at ≡ 0 }
    {
        Printer { out, at: 0 }
    }

    // Puts one byte.
    pub(crate) fn put_byte(&mut self, b: u8)
        requires { self.old.at < 65536 }
        ensures { Puts 1 self.old (b ∷ []) self.new }
    {
        if self.at < self.out.len() {
            self.out[self.at] = b;
        }
        self.at += 1;
    }

    // Puts a text.
    pub fn put_text(&mut self, text: &[u8])
        requires { (self.old.at < 32768) × (length text.now < 256) }
        ensures { Puts (length text.now) self.old text.now self.new }
    {
        for &b in text {
            self.put_byte(b);
        }
    }

    // Puts a number in decimal, without leading zeros.
    pub fn put_number(&mut self, n: u32)
        requires { self.old.at < 32768 }
        ensures { Puts 10 self.old (lines.digits n) self.new }
    {
        self.put_text(Buffer::new().format(n).as_bytes());
    }

    // Puts a field that follows another: one space and a number.
    pub(crate) fn put_field(&mut self, n: u32)
        requires { self.old.at < 32767 }
        ensures { Puts 11 self.old (32 ∷ lines.digits n) self.new }
    {
        self.put_byte(b' ');
        self.put_number(n);
    }
}
