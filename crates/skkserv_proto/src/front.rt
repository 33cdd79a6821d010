ghost use Rattle.std.specs.Prelude.{◌≡◌, ◌∷◌, ◌++◌, IfOk, OnOk, OnErr, length};
ghost use Rattle.skkserv_proto.specs.declared.command.CommandByte.TheVariants as commands;
ghost use Rattle.skkserv_proto.specs.Fronts.{IsFront, IsPlaceOf, IsRest, asked_in, asked_last};
ghost use Rattle.skkserv_proto.specs.Requests.{command_at};

use crate::command::{CommandByte, Wants, command_at};
use crate::place::RequestPlace;
use crate::reading::{READING, ReadingEnding};
use crate::request::Request;
use cut_input::{Begun, PieceEnd, piece_end};
use skk_text::{Bytes, Memory};
use std::alloc::Global;

/// What is whole at the front of bytes.
#[derive(Clone, Copy, Debug)]
pub enum Token<'t> {
    /// A CR or an LF, which is skipped.
    LineEnd,
    /// The version is asked.
    Version,
    /// The host is asked.
    Host,
    /// A command with its reading.
    Reading(Wants, &'t [u8]),
}

/// What bytes are that begin with no token.
#[derive(Clone, Copy, Debug)]
pub enum Rest<'t> {
    /// None.
    Empty,
    /// A command, and bytes that don't end its reading.
    Open(Wants, &'t [u8]),
    /// They begin with the end of the connection.
    Ended,
    /// They have a bad byte, which is the first of so many.
    Bad { left: usize },
}

/// How bytes begin, where a command may stand.
#[derive(Clone, Copy, Debug)]
pub enum Front<'t> {
    /// With a token, and behind it these bytes.
    Whole(Token<'t>, &'t [u8]),
    /// With none.
    Cut(Rest<'t>),
}

/// How bytes begin, where a command may stand. Takes no memory, and time in the bytes that are told of.
pub fn front_of(bytes: &[u8]) -> Front<'_>
    ensures { IsFront bytes.now result }
{
    let [first, behind @ ..] = bytes else {
        return Front::Cut(Rest::Empty);
    };
    match command_at(*first) {
        CommandByte::LineEnd => Front::Whole(Token::LineEnd, behind),
        CommandByte::End => Front::Cut(Rest::Ended),
        CommandByte::Version => Front::Whole(Token::Version, behind),
        CommandByte::Host => Front::Whole(Token::Host, behind),
        CommandByte::Reading(wants) => front_of_reading(*first, wants, behind),
        CommandByte::Other => Front::Cut(Rest::Bad { left: bytes.len() }),
    }
}

// How bytes begin that are a command and the text behind it, where a reading stands behind the command.
fn front_of_reading(command: u8, wants: Wants, text: &[u8]) -> Front<'_>
    requires { command_at command ≡ commands.Reading wants }
    ensures { IsFront (command ∷ text.now) result }
{
    match piece_end::<ReadingEnding>(&[], text) {
        PieceEnd::Here(reading, behind) => Front::Whole(Token::Reading(wants, reading), behind),
        PieceEnd::Open => Front::Cut(Rest::Open(wants, text)),
        PieceEnd::TooLong => Front::Cut(Rest::Bad {
            left: text.len().saturating_sub(READING),
        }),
    }
}

impl Token<'_> {
    /// Adds the request that it is, if it is one.
    pub fn push_to(self, alloc: Global, requests: &mut Vec<Request>) -> Result<(), Memory>
        ensures { OnOk result (requests.new.items ≡ requests.old.items ++ asked_in self.entry) }
    {
        let request = match self {
            Token::LineEnd => return Ok(()),
            Token::Version => Request::Version,
            Token::Host => Request::Host,
            Token::Reading(wants, reading) => wants.request(joined(alloc, &[], reading)?),
        };
        requests.push(request)?;
        Ok(())
    }
}

impl Rest<'_> {
    /// Where bytes end that end with this behind their last token, so many with as many before them; the end is added
    /// to the requests where it stands there.
    pub fn place(
        self,
        alloc: Global,
        before: u64,
        count: usize,
        requests: &mut Vec<Request>,
    ) -> Result<RequestPlace, Memory>
        ensures place { IfOk result (IsPlaceOf self.entry before count) }
        ensures asked { OnOk result (requests.new.items ≡ requests.old.items ++ asked_last self.entry) }
    {
        match self {
            Rest::Empty => Ok(RequestPlace::Command),
            Rest::Open(wants, reading) => {
                let text = Begun::of(alloc, reading)?;
                Ok(RequestPlace::Reading { wants, text })
            }
            Rest::Ended => {
                requests.push(Request::End)?;
                Ok(RequestPlace::Ended)
            }
            Rest::Bad { left } => Ok(RequestPlace::Bad {
                at: before.saturating_add(count.saturating_sub(left) as u64),
            }),
        }
    }
}

/// Bytes, and others behind them.
pub fn joined(alloc: Global, bytes: &[u8], others: &[u8]) -> Result<Bytes, Memory>
    ensures { IfOk result (λ whole. whole ≡ bytes.now ++ others.now) }
{
    let mut whole = Vec::new(alloc);
    whole.extend_from_slice(bytes)?;
    whole.extend_from_slice(others)?;
    Ok(Bytes::of(whole))
}
