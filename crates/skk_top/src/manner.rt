use skk_disk::Disk;

/// The manner in which a script is typed, for contracts alone.
pub trait Manner<D: Disk> {
    ghost use Rattle.skk_top.specs.TypeCommand.{Manner};

    /// What the typing of lines leaves.
    ghost leaves: { Manner D };
}
