ghost use Rattle.std.specs.Prelude.{◌≡◌, ◌≤◌};
ghost use Rattle.skk_disk.specs.Image.{other};
ghost use Rattle.skk_journal.specs.declared.live.Idle.{Idle as idle_value};
ghost use Rattle.skk_journal.specs.Records.{IsGeneration};
ghost use Rattle.skk_journal.specs.Generations.{HasGeneration, next_generation, generation_before};
ghost use Rattle.skk_journal.specs.Generations.{one_more as more, one_less as less};

use skk_disk::Which;

/// The file whose records count, its version and its generation.
#[derive(Clone, Copy, Debug)]
pub struct Live {
    pub file: Which,
    pub version: u8,
    pub generation: u64,
}

/// What is known of the file that is not live: it gives way at each moment of its filling.
#[derive(Clone, Copy, Debug)]
pub enum Idle {
    /// Its first byte is 0.
    Blank,
    /// It gives way whatever its first byte is.
    Loose,
    /// Its first byte is neither 0 nor 1, and its mark is right: with another first byte old records might count.
    Stray,
}

/// What may stand open.
#[derive(Clone, Copy, Debug)]
pub enum Doubt {
    /// Nothing.
    Calm,
    /// The gate of the first record that was to be added behind the others.
    Record,
    /// The gate of the idle file.
    Idle,
}

// The file that is not this one.
pub(crate) fn other_file(file: Which) -> Which
    ensures { result ≡ other file }
{
    match file {
        Which::A => Which::B,
        Which::B => Which::A,
    }
}

// The generation that a file gets beside a live one, or beside none.
pub(crate) fn generation_beside(beside: Option<Live>) -> u64
    ensures next { result ≡ next_generation beside }
    ensures small { HasGeneration beside }
{
    match beside {
        None => 1,
        Some(live) => one_more(live.generation),
    }
}

// A generation that gives way to a live one, or to none.
pub(crate) fn aged_generation(beside: Option<Live>) -> u64
    ensures before { result ≡ generation_before beside }
    ensures small { HasGeneration beside }
{
    match beside {
        None => 0,
        Some(live) => one_less(live.generation),
    }
}

// One generation more, which is 0 behind the greatest.
pub(crate) fn one_more(generation: u64) -> u64
    ensures more { result ≡ more generation }
    ensures small { IsGeneration generation }
{
    if generation == u64::MAX {
        0
    } else {
        generation + 1
    }
}

// One generation less, which is the greatest before 0.
fn one_less(generation: u64) -> u64
    ensures less { result ≡ less generation }
    ensures small { IsGeneration generation }
{
    if generation == 0 {
        u64::MAX
    } else {
        generation - 1
    }
}
