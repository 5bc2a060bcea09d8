// The two lines of a record as they are put together, so that they are written at once: text, and numbers behind their names.
use numbers::offset::Offset;

// More than two lines have: a line has at most 20 numbers, of at most 20 digits each with a name of at most 15 bytes.
const LINES: usize = 2_040;

const DIGITS: &[u8; 16] = b"0123456789abcdef";

#[derive(Clone, Copy)]
pub struct Lines {
    room: [u8; LINES],
    end: usize,
}

impl Lines {
    pub fn new() -> Lines {
        Lines {
            room: [0u8; LINES],
            end: 0,
        }
    }

    // What was put together so far.
    pub fn filled(&self) -> &[u8] {
        self.room.get(..self.end).unwrap_or(&[])
    }

    // Text, where there is room.
    pub fn text(&mut self, text: &[u8]) {
        let end = self.end.saturating_add(text.len());
        if let Some(place) = self.room.get_mut(self.end..end) {
            place.copy_from_slice(text);
            self.end = end;
        }
    }

    // A number in decimal, behind its name.
    pub fn number(&mut self, name: &[u8], number: u64) {
        let mut text = [b'0'; 20];
        let mut rest = number;
        let mut first = 19;
        for k in 0..20 {
            first = 19 - k;
            text[19 - k] = b'0' + (rest % 10) as u8;
            rest /= 10;
            if rest == 0 {
                break;
            }
        }
        self.text(name);
        self.text(text.get(first..).unwrap_or(&[]));
    }

    // A word in 16 hexadecimal digits, behind its name.
    pub fn word(&mut self, name: &[u8], word: u64) {
        let mut text = [b'0'; 16];
        let mut rest = word;
        for k in 0..16 {
            text[15 - k] = DIGITS[(rest % 16) as usize];
            rest /= 16;
        }
        self.text(name);
        self.text(&text);
    }

    // An offset with its sign, and 0 as +0, behind its name.
    pub fn offset(&mut self, name: &[u8], offset: Offset) {
        self.text(name);
        let sign: &[u8] = if offset.by < 0 { b"-" } else { b"+" };
        self.number(sign, offset.by.unsigned_abs());
    }
}
