ghost use Rattle.std.specs.Prelude.{◌≡◌, ◌<◌, ◌≤◌, length};
ghost use Rattle.load_input.specs.Lines.{syllable};

/// How many syllables there are.
pub const SYLLABLES: u64 = 16;

/// The letters of the syllable of a number.
pub fn syllable(number: u64) -> &'static str
    requires { number < 16 }
    ensures letters { result.now ≡ syllable number }
    ensures some { 1 ≤ length result.now }
{
    match number {
        0 => "ka",
        1 => "ki",
        2 => "ku",
        3 => "ke",
        4 => "ko",
        5 => "sa",
        6 => "shi",
        7 => "su",
        8 => "se",
        9 => "so",
        10 => "ta",
        11 => "chi",
        12 => "tsu",
        13 => "te",
        14 => "to",
        _ => "na",
    }
}
