// The data types of columns (RULES.md 4.3).

ghost use Rattle.std.specs.Prelude.{◌≡◌, ◌≤◌, ◌<◌, ℕ, length, true};
ghost use Rattle.table_rules.specs.DataType.{nth_row, type_name, element_bits, filled, with_number, is_name, with_name};

// A data type: its number in Casacore's DataType.h. The bits of an element go by the number alone (`bits_of`). Two bytes, so that a
// `Column` has no gap, and a list of them is cleared as one block.
// No enum: `bits_of` and `hv_element_bits` take every number, and a plan that C hands in may name any.
#[derive(Clone, Copy)]
pub struct DataType {
    pub number: u16,
}

impl DataType {
    // A constant for each type, of one shape: they differ in the number alone, and each has its type's name.
    pub const BOOL: DataType = DataType { number: 0 };

    pub const UCHAR: DataType = DataType { number: 2 };

    pub const SHORT: DataType = DataType { number: 3 };

    pub const USHORT: DataType = DataType { number: 4 };

    pub const INT: DataType = DataType { number: 5 };

    pub const UINT: DataType = DataType { number: 6 };

    pub const FLOAT: DataType = DataType { number: 7 };

    pub const DOUBLE: DataType = DataType { number: 8 };

    pub const COMPLEX: DataType = DataType { number: 9 };

    pub const DCOMPLEX: DataType = DataType { number: 10 };

    pub const STRING: DataType = DataType { number: 11 };

    pub const INT64: DataType = DataType { number: 29 };

    // The bare name; no characters for what is none of the types.
    #[tactic(auto, unfolding(crate::specs::DataType::type_name, crate::specs::DataType::type_place, bytes_at::specs::Lists::first_from))]
    pub fn bare_name(self) -> &'static [u8]
        ensures value { result.now ≡ type_name self }
        ensures bounded { length result.now ≤ 8 }
    {
        match self.number {
            0 => b"Bool",
            2 => b"uChar",
            3 => b"Short",
            4 => b"uShort",
            5 => b"Int",
            6 => b"uInt",
            7 => b"float",
            8 => b"double",
            9 => b"Complex",
            10 => b"DComplex",
            11 => b"String",
            29 => b"Int64",
            _ => b"",
        }
    }

    // The name, filled with spaces to eight characters; spaces alone for what is none of the types.
    pub fn name(self) -> [u8; 8]
        ensures { result ≡ filled (type_name self) }
    {
        let bare = self.bare_name();
        let mut name = [b' '; 8];
        bytes_at::copy(bare, 0, bare.len(), &mut name, 0);
        name
    }

    // How long the bare name is.
    pub fn name_len(self) -> usize
        ensures { (result ≡ length (type_name self)) × (result ≤ 8) }
    {
        self.bare_name().len()
    }

    // The type of a number.
    // No TryFrom: `with_number` and `with_name` give an Option, and an error would say nothing more.
    pub fn from_number(n: usize) -> Option<DataType>
        ensures { result ≡ with_number n }
    {
        match n {
            0 | 2..=11 | 29 => Some(DataType { number: n as u16 }),
            _ => None,
        }
    }

    // The bits of an element, from its type's number: the rows of Note 260's table of 3.4.2 (| Data Type | Size |) in their
    // order, corrected behind a colon, then everything else, a String too. Every other function that needs a size has it from here.
    #[tactic(auto, unfolding(crate::specs::DataType::element_bits))]
    pub fn bits_of(number: usize) -> usize
        ensures value { result ≡ element_bits number }
        ensures bounded { result < 256 }
    {
        match number {
            0 => 1, // | Bool | 1 byte |: a bit
            2 => 8, // | uChar | 1 byte |
            3 => 16, // | Short | 1 byte |: two bytes
            4 => 16, // | uShort | 2 byte |
            5 => 32, // | Int | 4 byte |
            6 => 32, // | uInt | 4 byte |
            29 => 64, // | Int64 | 8 byte |
            7 => 32, // | Float | 4 byte |
            8 => 64, // | Double | 8 bytes |
            9 => 64, // | Complex | 8 bytes |
            10 => 128, // | DComplex | 16 bytes |
            _ => 0,
        }
    }

    // The bits of an element of this type.
    pub fn element_bits(self) -> usize
        ensures value { result ≡ element_bits self.number }
        ensures bounded { result < 256 }
    {
        DataType::bits_of(self.number as usize)
    }

    // Whether the bytes are the type's name, bare or filled.
    fn named(self, s: &[u8]) -> bool
        ensures { result ≡ is_name s.now (type_name self) }
    {
        bytes_at::same(s, self.bare_name()) || bytes_at::same(s, &self.name())
    }

    // The number of the one type whose name the bytes can be. The fourth letter tells the names apart, and the first uChar
    // from float.
    fn candidate(s: &[u8]) -> usize
        ensures { (i : ℕ) → i < 12 → is_name s.now (nth_row i).name ≡ true → result ≡ (nth_row i).number }
    {
        if s.len() < 4 {
            return 5;
        }
        match s[3] {
            b'l' => 0,
            b'a' if s[0] == b'u' => 2,
            b'a' => 7,
            b'r' => 3,
            b'o' => 4,
            b't' => 6,
            b'b' => 8,
            b'p' => 9,
            b'm' => 10,
            b'i' => 11,
            b'6' => 29,
            _ => 5,
        }
    }

    // The type of a name, bare or filled with spaces to eight characters.
    pub fn from_name(s: &[u8]) -> Option<DataType>
        ensures { result ≡ with_name s.now }
    {
        DataType::from_number(DataType::candidate(s)).filter(|t| t.named(s))
    }
}
