ghost use Rattle.std.specs.Prelude.{◌≡◌, ◌++◌, ℕ, List, IfOk, OnOk, Some, codes, encode_utf8_all, length};
ghost use Rattle.std.specs.Prelude.{if◌then◌else◌, map};
ghost use Rattle.std.specs.List.{flat_map};
ghost use Rattle.std.specs.Option.{option_map};
ghost use Rattle.std.specs.Str.{chars};
ghost use Rattle.skk_calls.specs.Canonical.{item};
ghost use Rattle.exact_readers.specs.Lacking.{lacks};
ghost use Rattle.skkserv_proto.specs.Replies.{cands_in, found_or_not, item_bytes, not_found, reading_bytes};
ghost use Rattle.skkserv_proto.specs.Replies.{readings_in};
ghost use Rattle.skkserv_proto.specs.Replies.{reply_to};

use crate::request::Request;
use dict_format::push_item;
use exact_readers::{Printer, print_each};
use skk_calls::{Cand, Cands, FoundItems, PlainCands, Reply};
use skk_text::{Bytes, Memory, Text};
use std::alloc::Global;

/// What a client is sent for a request and the reply to its call, if it is a call: nothing for the end. Takes time in
/// what is sent, and in the readings of the reply.
pub fn reply_bytes(
    alloc: Global,
    request: &Request,
    reply: Option<&Reply>,
) -> Result<Vec<u8>, Memory>
    ensures { IfOk result (λ bytes. bytes.items ≡ reply_to request.now (option_map (λ r. r.now) reply.entry)) }
{
    match request {
        Request::End => Ok(Vec::new(alloc)),
        Request::Look(bytes) => cands_or_not(alloc, bytes, reply),
        Request::Version => bytes_of(alloc, b"skk-desk-1.0 "),
        Request::Host => bytes_of(alloc, b"localhost:127.0.0.1: "),
        Request::Complete(bytes) => readings_or_not(alloc, bytes, reply),
    }
}

// What is sent for bytes and the candidates of a reply, if there is one.
fn cands_or_not(alloc: Global, bytes: &Bytes, reply: Option<&Reply>) -> Result<Vec<u8>, Memory>
    ensures { IfOk result (λ sent.
        sent.items ≡ found_or_not bytes.now (cands_in (option_map (λ r. r.now) reply.entry))) }
{
    match reply {
        Some(reply) => cands_of(alloc, bytes, reply),
        None => not_found(alloc, bytes),
    }
}

// What is sent for bytes and the candidates of a reply.
fn cands_of(alloc: Global, bytes: &Bytes, reply: &Reply) -> Result<Vec<u8>, Memory>
    ensures { IfOk result (λ sent. sent.items ≡ found_or_not bytes.now (cands_in (Some reply.now))) }
{
    let Reply::Found(found) = reply else {
        return not_found(alloc, bytes);
    };
    match found.items() {
        FoundItems::Distinct(cands) => list_of(alloc, bytes, cands.cands()),
        FoundItems::Plain(cands) => plain_list(alloc, cands),
    }
}

// What is sent for bytes and candidates each by itself.
fn list_of(alloc: Global, bytes: &Bytes, cands: &Cands) -> Result<Vec<u8>, Memory>
    ensures { IfOk result (λ sent. sent.items ≡ found_or_not bytes.now (map item cands.now)) }
{
    let mut listing = ReplyListing::new(alloc)?;
    print_each::<ListedCand>(&mut listing, cands.as_slice())?;
    let sent = listing.end(bytes)?;
    Ok(sent)
}

// What is sent for candidates that lie in one text, whatever the bytes: the text is their list as it lies.
fn plain_list(alloc: Global, cands: &PlainCands) -> Result<Vec<u8>, Memory>
    ensures { IfOk result (λ sent. (bytes : List ℕ) → sent.items ≡ found_or_not bytes (map item cands.now)) }
{
    let text = cands.text().as_str().as_bytes();
    let mut sent = Vec::with_capacity(alloc, text.len().saturating_add(3))?;
    sent.extend_from_slice(b"1/")?;
    sent.extend_from_slice(text)?;
    sent.push(b'\n')?;
    Ok(sent)
}

// What is sent for bytes and the readings of a reply, if there is one.
fn readings_or_not(alloc: Global, bytes: &Bytes, reply: Option<&Reply>) -> Result<Vec<u8>, Memory>
    ensures { IfOk result (λ sent.
        sent.items ≡ found_or_not bytes.now (readings_in (option_map (λ r. r.now) reply.entry))) }
{
    match reply {
        Some(reply) => readings_of(alloc, bytes, reply),
        None => not_found(alloc, bytes),
    }
}

// What is sent for bytes and the readings of a reply.
fn readings_of(alloc: Global, bytes: &Bytes, reply: &Reply) -> Result<Vec<u8>, Memory>
    ensures { IfOk result (λ sent. sent.items ≡ found_or_not bytes.now (readings_in (Some reply.now))) }
{
    let Reply::Readings(readings) = reply else {
        return not_found(alloc, bytes);
    };
    let mut listing = ReplyListing::new(alloc)?;
    print_each::<ListedReading>(&mut listing, readings.as_slice())?;
    let sent = listing.end(bytes)?;
    Ok(sent)
}

// Items that are listed, each with its slash, behind what begins a list. They are written into one text, so that no
// item takes memory of its own.
#[derive(Drop)]
struct ReplyListing {
    alloc: Global,
    text: Text,
}

impl ReplyListing {
    // The list of no items.
    fn new(alloc: Global) -> Result<ReplyListing, Memory>
        ensures { IfOk result (λ listing. encode_utf8_all listing.text ≡ codes "1/") }
    {
        let text = Text::from_str(alloc, "1/")?;
        Ok(ReplyListing { alloc, text })
    }

    // What is sent of the list for these bytes, for which nothing was found where it has no item.
    #[tactic(auto, using(crate::proofs::Listing::listing))]
    fn end(self, bytes: &Bytes) -> Result<Vec<u8>, Memory>
        ensures { IfOk result (λ sent. (items : List (List ℕ))
            → encode_utf8_all self.text ≡ codes "1/" ++ flat_map item_bytes items
            → sent.items ≡ found_or_not bytes.now items) }
    {
        let ReplyListing { alloc, mut text } = self;
        if text.byte_len() == 2 {
            return not_found(alloc, bytes);
        }
        text.push('\n')?;
        bytes_of(alloc, text.as_str().as_bytes())
    }
}

// A candidate as an item of a list.
struct ListedCand;

impl Printer for ListedCand {
    type Page = ReplyListing;

    type Value = Cand;

    ghost Token = { ℕ };

    ghost shown = { λ listing. encode_utf8_all listing.text };

    ghost printed = { λ cand. item_bytes (item cand) };

    #[tactic(auto, using(crate::proofs::Listing::listing))]
    fn print(listing: &mut ReplyListing, cand: &Cand) -> Result<(), Memory> {
        push_item(&mut listing.text, cand)?;
        listing.text.push('/')
    }
}

// A reading as an item of a list, where it holds no slash.
struct ListedReading;

impl Printer for ListedReading {
    type Page = ReplyListing;

    type Value = Text;

    ghost Token = { ℕ };

    ghost shown = { λ listing. encode_utf8_all listing.text };

    ghost printed = { λ reading. reading_bytes reading };

    #[tactic(auto, using(crate::proofs::Listing::listing))]
    fn print(listing: &mut ReplyListing, reading: &Text) -> Result<(), Memory> {
        if !lacks_slash(reading.as_str()) {
            return Ok(());
        }
        listing.text.push_str(reading.as_str())?;
        listing.text.push('/')
    }
}

// Whether a text holds no slash.
fn lacks_slash(text: &str) -> bool
    ensures { result ≡ lacks 0x2F (chars text.now) }
{
    text.chars().all(|c| c != '/')
}

// What is sent where nothing is found for bytes.
fn not_found(alloc: Global, bytes: &Bytes) -> Result<Vec<u8>, Memory>
    ensures { IfOk result (λ sent. sent.items ≡ not_found bytes.now) }
{
    let mut sent = bytes_of(alloc, b"4")?;
    sent.extend_from_slice(bytes.as_slice())?;
    sent.extend_from_slice(b" \n")?;
    Ok(sent)
}

// These bytes.
fn bytes_of(alloc: Global, bytes: &[u8]) -> Result<Vec<u8>, Memory>
    ensures { IfOk result (λ whole. whole.items ≡ bytes.now) }
{
    let mut whole = Vec::new(alloc);
    whole.extend_from_slice(bytes)?;
    Ok(whole)
}
