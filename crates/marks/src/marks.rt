ghost use Rattle.std.specs.Prelude.{◌≡◌};
ghost use Rattle.marks.specs.Marks.{letter, kind_of, is_layout, word_width, is_go, known_width};

use contraction::contraction::Operand;

// The ASCII code of a tensor's letter.
pub fn ascii(tensor: Operand) -> u8
    ensures { result ≡ letter tensor }
{
    match tensor {
        Operand::A => b'A',
        Operand::B => b'B',
        Operand::C => b'C',
        Operand::D => b'D',
    }
}

// A record's kind, with its tensor.
#[derive(Clone, Copy, PartialEq, Eq)]
pub enum Kind {
    Layout(Operand),
    Words(Operand),
    Bytes(Operand),
    Go,
    Other,
}

impl Kind {
    // A record's kind by its two-byte mark, read as a 16-bit number: the first letter is the low byte.
    pub fn of(mark: u16) -> Kind
        ensures { result ≡ kind_of mark }
    {
        match mark {
            0x414c => Kind::Layout(Operand::A), // LA
            0x424c => Kind::Layout(Operand::B), // LB
            0x434c => Kind::Layout(Operand::C), // LC
            0x444c => Kind::Layout(Operand::D), // LD
            0x4157 => Kind::Words(Operand::A), // WA
            0x4257 => Kind::Words(Operand::B), // WB
            0x4357 => Kind::Words(Operand::C), // WC
            0x4457 => Kind::Words(Operand::D), // WD
            0x4159 => Kind::Bytes(Operand::A), // YA
            0x4259 => Kind::Bytes(Operand::B), // YB
            0x4459 => Kind::Bytes(Operand::D), // YD
            0x4f47 => Kind::Go, // GO
            _ => Kind::Other,
        }
    }

    // Is a record of this kind the layout of the tensor with this letter?
    pub fn is_layout(self, letter: u8) -> bool
        ensures { result ≡ is_layout letter self }
    {
        matches!(self, Kind::Layout(tensor) if ascii(tensor) == letter)
    }

    // How many bytes a word has in a record of this kind, where it holds the words of the tensor with this letter.
    pub fn word_width(self, letter: u8) -> Option<usize>
        ensures { result ≡ known_width (word_width letter self) }
    {
        match self {
            Kind::Words(tensor) if ascii(tensor) == letter => Some(4),
            Kind::Bytes(tensor) if ascii(tensor) == letter => Some(1),
            _ => None,
        }
    }

    // Is a record of this kind `GO`?
    pub fn is_go(self) -> bool
        ensures { result ≡ is_go self }
    {
        self == Kind::Go
    }
}
