// A pen writes text and numbers into a buffer, each after what it wrote before.
ghost use Rattle.std.specs.Prelude.{◌≡◌, ◌+◌, ◌%◌, ◌<◌, length, decimal};
ghost use Rattle.records.specs.Lines.{field};
ghost use Rattle.records.specs.Pens.{Fits, Wrote, Short};
ghost use Rattle.records.specs.TableWritten.{numbered};

// The last decimal digit of a number.
fn digit(number: usize) -> u8
    ensures { result ≡ 48 + number % 10 }
{
    b'0' + (number % 10) as u8
}

// The buffer, and the place of the next byte.
#[derive(Drop)]
pub(crate) struct Pen<'a> {
    buffer: &'a mut [u8],
    at: usize,
}

impl<'a> Pen<'a> {
    // A pen at the buffer's front.
    pub(crate) fn new(buffer: &'a mut [u8]) -> Pen<'a>
        ensures same { result.buffer.ghost_name ≡ buffer.entry.ghost_name }
        ensures front { result.at ≡ 0 }
        ensures holds { result.buffer.now ≡ buffer.old }
    {
        Pen { buffer, at: 0 }
    }

    // How many bytes it wrote.
    pub(crate) fn written(&self) -> usize
        ensures { result ≡ self.now.at }
    {
        self.at
    }

    // The text, byte by byte.
    pub(crate) fn text(&mut self, text: &[u8])
        requires { Fits (length text.now) self.old }
        ensures { Wrote text.now self.old self.new }
    {
        let end = self.at + text.len();
        self.buffer[self.at..end].copy_from_slice(text);
        self.at = end;
    }

    // The number in decimal digits. Up to four, as nearly all have, go straight into the buffer: by way of another one a
    // line takes up to twice as long.
    pub(crate) fn number(&mut self, number: usize)
        requires { Fits (length (decimal number)) self.old }
        ensures short { Short 0 number self.old self.new }
        ensures put { Wrote (decimal number) self.old self.new }
    {
        let tens = number / 10;
        if number < 10 {
            self.text(&[digit(number)]);
        } else if number < 100 {
            self.text(&[digit(tens), digit(number)]);
        } else if number < 1000 {
            self.text(&[digit(tens / 10), digit(tens), digit(number)]);
        } else if number < 10_000 {
            self.text(&[
                digit(tens / 10 / 10),
                digit(tens / 10),
                digit(tens),
                digit(number),
            ]);
        } else {
            self.text(itoa::Buffer::new().format(number).as_bytes());
        }
    }

    // The words, and then the number. There is room for the longest number.
    pub(crate) fn field(&mut self, words: &[u8], number: usize)
        requires { Fits (length words.now + 20) self.old }
        ensures short { Short (length words.now) number self.old self.new }
        ensures put { Wrote (field words.now number) self.old self.new }
    {
        self.text(words);
        self.number(number);
    }

    // A record with a number in two bytes, the high byte first.
    pub(crate) fn numbered(&mut self, kind: u8, value: usize)
        requires small { value < 65536 }
        requires room { Fits 3 self.old }
        ensures { Wrote (numbered kind value) self.old self.new }
    {
        let [high, low] = (value as u16).to_be_bytes();
        self.text(&[kind, high, low]);
    }
}
