use skk_outside::Failed;

/// How the serving of a connection ended.
#[derive(Clone, Copy, Debug, PartialEq, Eq)]
pub enum End {
    /// The input ended, a client's `0` was read, or a reply that closes was written.
    Closed,
    /// A call of the link failed.
    LinkFault,
    /// As many bytes were read as a connection may have.
    Limit,
    /// Out of memory, or a client's call was refused.
    Memory,
}

impl From<Failed> for End {
    ghost use Rattle.std.specs.Prelude.{◌≡◌};
    ghost use Rattle.skk_server.specs.declared.end.End.TheVariants as ends;

    ghost from_gives = { λ _ end. end ≡ ends.LinkFault };

    fn from(_failed: Failed) -> End {
        End::LinkFault
    }
}
