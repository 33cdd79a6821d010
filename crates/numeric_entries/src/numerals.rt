ghost use Rattle.std.specs.Prelude.{◌≡◌, true};
ghost use Rattle.std.specs.Char.{is_ascii_digit};
ghost use Rattle.numeric_entries.specs.Numerals.{numeral};

/// Kanji that a number is written in.
pub struct Numerals {
    /// The digits from 0 to 9.
    pub digits: [char; 10],
    /// Ten, hundred and thousand.
    pub places: [char; 3],
    /// The second, third and fourth group of four digits.
    pub groups: [char; 3],
    /// Whether a one is written before ten, hundred and thousand.
    pub writes_one: bool,
}

/// The kanji of everyday numbers.
pub const EVERYDAY: Numerals = Numerals {
    digits: ['〇', '一', '二', '三', '四', '五', '六', '七', '八', '九'],
    places: ['十', '百', '千'],
    groups: ['万', '億', '兆'],
    writes_one: false,
};

/// The kanji of legal documents (大字), which are hard to alter.
pub const FORMAL: Numerals = Numerals {
    digits: ['零', '壱', '弐', '参', '四', '伍', '六', '七', '八', '九'],
    places: ['拾', '百', '阡'],
    groups: ['萬', '億', '兆'],
    writes_one: true,
};

impl Numerals {
    // The kanji of a digit.
    pub fn digit(&self, digit: u8) -> char
        requires { is_ascii_digit digit ≡ true }
        ensures { result ≡ numeral self.now digit }
    {
        self.digits[(digit - b'0') as usize]
    }
}
