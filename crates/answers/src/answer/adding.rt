// Adding parts at the end of a line of output: of each as much as there is room for.
ghost use Rattle.std.specs.Prelude.{◌≡◌, ◌≤◌, [], ◌∷◌, map, length};
ghost use Rattle.std.specs.List.{flat_map};
ghost use Rattle.octets.specs.Parity.{character};
ghost use Rattle.answers.specs.Printed.{escaped};
ghost use Rattle.answers.specs.Room.{Adds};

use crate::answer::AnswerLine;
use itoa::{Buffer, Integer};
use octets::character_of;

impl AnswerLine {
    // A line with nothing in it.
    pub fn new() -> AnswerLine
        ensures { result ≡ [] }
    {
        AnswerLine {
            octets: [0; 512],
            used: 0,
        }
    }

    // What the line holds.
    pub fn as_slice(&self) -> &[u8]
        ensures held { result.now ≡ self.now }
        ensures within { length result.now ≤ 512 }
    {
        &self.octets[0..self.used]
    }

    // Empties the line.
    pub(crate) fn clear(&mut self)
        ensures { self.new ≡ [] }
    {
        self.used = 0;
    }

    // Adds octets as they are.
    pub(crate) fn add(&mut self, part: &[u8])
        ensures { Adds self.old part.now self.new }
    {
        let room = (self.octets.len() - self.used).min(part.len());
        self.octets[self.used..self.used + room].copy_from_slice(&part[..room]);
        self.used += room;
    }

    // Adds one octet.
    fn add_octet(&mut self, octet: u8)
        ensures { Adds self.old (octet ∷ []) self.new }
    {
        if self.used < self.octets.len() {
            self.octets[self.used] = octet;
            self.used += 1;
        }
    }

    // Adds a comma, and a part behind it.
    pub(crate) fn add_part(&mut self, part: &[u8])
        ensures { Adds self.old (44 ∷ part.now) self.new }
    {
        self.add(b",");
        self.add(part);
    }

    // Adds a comma, and the characters of octets behind it.
    pub(crate) fn add_characters<const N: usize>(&mut self, octets: &[u8; N])
        ensures added { Adds self.old (44 ∷ map character octets.now) self.new }
        ensures sized { length octets.now ≡ N }
    {
        self.add(b",");
        // A loop: with the array's `map` it was tried, and its demand that N is below 2 ^ 63 stayed open.
        for octet in octets {
            self.add_octet(character_of(*octet));
        }
    }

    // Adds a character of a text: a line feed, a carriage return and a backslash as a backslash and a letter for them.
    fn add_escaped(&mut self, character: u8)
        ensures { Adds self.old (escaped character) self.new }
    {
        match character {
            b'\n' => self.add(b"\\n"),
            b'\r' => self.add(b"\\r"),
            b'\\' => self.add(b"\\\\"),
            _ => self.add_octet(character),
        }
    }

    // Adds a comma, and the characters of a text behind it.
    pub(crate) fn add_text(&mut self, text: &[u8])
        ensures { Adds self.old (44 ∷ flat_map escaped (map character text.now)) self.new }
    {
        self.add(b",");
        for octet in text {
            self.add_escaped(character_of(*octet));
        }
    }

    // Adds a number in decimal.
    pub(crate) fn add_number<I: Integer>(&mut self, number: I)
        ensures added { Adds self.old (I.text number) self.new }
        ensures short { length (I.text number) ≤ I.MAX_STR_LEN }
    {
        self.add(Buffer::new().format(number).as_bytes());
    }
}
