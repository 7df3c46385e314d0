//! Replies that list texts, written into the memory of an answer (RFC 2608, sections 10.2 and 10.4). How long one is,
//! and whether it is whole, is known once the texts are listed, and is filled in then.
ghost use Rattle.std.specs.Prelude.{◌≡◌, ◌≤◌, ◌+◌, ◌++◌, [], ℕ, List, length, drop, string_bytes, IfOk};
ghost use Rattle.std.specs.Option.{option_copied};
ghost use Rattle.slp_headers.specs.Headers.{heading_in};
ghost use Rattle.directory_judge.specs.Judgements.{by_step};
ghost use Rattle.directory_judge.specs.declared.reason.Decider.TheVariants as decider;
ghost use Rattle.directory_questions.specs.Answers.{IsCutReply};
ghost use Rattle.directory_questions.specs.Outcomes.{Outcome};
ghost use Rattle.slp_replies.specs.Tellings.{TellsOf};
ghost use Rattle.slp_replies.specs.TextLists.{form_end, form_function, head_bytes, listed_with, IsListedReply};

use crate::answer::{Answer, Sent};
use crate::replies::Reply;
use crate::texts::{Texts, list};
use service_url::ServiceType;
use slp_text::NoMemory;
use slp_wire::{HeaderView, code, function, offset, reply_opening, two_bytes};
use std::alloc::Global;
use std::mem;

// What stands where a header and its tag's length will be, and where a code and a length will.
const HEADER: &str = "..............";

const LENGTH: &str = "....";

/// Which texts a reply lists.
#[derive(Clone, Copy)]
pub enum Form {
    Attributes,
    Types,
}

impl Form {
    // The number of the reply's function.
    fn function(self) -> u8
        ensures { result ≡ form_function self }
    {
        match self {
            Form::Attributes => function::ATTRIBUTE_REPLY,
            Form::Types => function::TYPE_REPLY,
        }
    }

    // What comes after the list: that there is no authentication block, where there can be some.
    fn end(self) -> &'static [u8]
        ensures value { result.now ≡ form_end self }
        ensures short { length result.now ≤ 1 }
    {
        match self {
            Form::Attributes => &[0],
            Form::Types => &[],
        }
    }
}

/// A reply that lists texts.
#[derive(Clone, Copy)]
pub struct Listing<'h> {
    pub header: &'h HeaderView<'h>,
    pub limit: usize,
    pub form: Form,
}

// The memory of bytes, as an empty text.
fn text_in(alloc: Global, bytes: &mut Vec<u8>) -> String
    requires { bytes.old.items ≡ [] }
    ensures { string_bytes result ≡ [] }
{
    match String::from_utf8(mem::replace(bytes, Vec::new(alloc))) {
        Ok(text) => text,
        Err(_) => unreachable!(),
    }
}

// Leaves room for what stands before a list.
fn leave_room(tag: &str, text: &mut String) -> Result<(), NoMemory>
    requires { string_bytes text.old ≡ [] }
    ensures { IfOk result (λ _. length (string_bytes text.new) ≡ 18 + length tag.now) }
{
    text.push_str(HEADER)?;
    text.push_str(tag)?;
    text.push_str(LENGTH)?;
    Ok(())
}

// Writes bytes over those after so many.
fn put_over(bytes: &mut Vec<u8>, from: usize, over: &[u8])
    requires { from + length over.now ≤ length bytes.old.items }
    ensures value { (done rest : List ℕ) → bytes.old.items ≡ done ++ rest → length done ≡ from → bytes.new.items ≡ (done ++ over.now) ++ drop (length over.now) rest }
    ensures length { length bytes.new.items ≡ length bytes.old.items }
{
    bytes[from..from + over.len()].copy_from_slice(over);
}

// Fills in what stands before a list of this length.
fn fill_in(listing: &Listing<'_>, is_cut: bool, listed: usize, bytes: &mut Vec<u8>)
    requires short { length bytes.old.items ≤ 65535 }
    requires room { 18 + length listing.now.header.now.language.now ≤ length bytes.old.items }
    ensures { bytes.new.items ≡ head_bytes (form_function listing.now.form) (heading_in listing.now.header.now) is_cut (length bytes.old.items) listed ++ drop (18 + length listing.now.header.now.language.now) bytes.old.items }
{
    let Listing { header, form, .. } = *listing;
    let tag = header.language.as_bytes();
    let fixed = reply_opening(header, form.function(), bytes.len(), is_cut);
    put_over(bytes, 0, &fixed);
    put_over(bytes, offset::TAG, tag);
    put_over(bytes, offset::TAG + tag.len(), &code::OK.to_be_bytes());
    put_over(bytes, offset::TAG + tag.len() + 2, &two_bytes(listed));
}

/// Writes a reply with as many of the texts from the front as fit.
pub fn put_listed<T: Texts>(
    alloc: Global,
    listing: &Listing<'_>,
    texts: &T,
    bytes: &mut Vec<u8>,
) -> Result<(), NoMemory>
    requires datagram { 1400 ≤ listing.now.limit }
    requires stream { listing.now.limit ≤ 65535 }
    requires empty { bytes.old.items ≡ [] }
    ensures { IfOk result (λ _. IsListedReply listing.now.form (heading_in listing.now.header.now) listing.now.limit (T.texts texts.now) bytes.new.items) }
{
    let Listing {
        header,
        limit,
        form,
    } = *listing;
    let end = form.end();
    let mut text = text_in(alloc, bytes);
    leave_room(header.language, &mut text)?;
    let start = text.len();
    let is_cut = list(texts, limit - end.len(), &mut text)?;
    let listed = text.len() - start;
    let mut written = text.into_bytes();
    written.extend_from_slice(end)?;
    fill_in(listing, is_cut, listed, &mut written);
    *bytes = written;
    Ok(())
}

impl Reply<'_> {
    /// Sends texts, from the front as many as fit, about a type, if they are about one.
    pub fn texts<T: Texts>(
        &self,
        alloc: Global,
        kind: Option<&ServiceType>,
        form: Form,
        texts: &T,
        answer: &mut Answer,
    ) -> Result<Sent, NoMemory>
        requires no_reply { answer.old.bytes.items ≡ [] }
        requires no_line { answer.old.audit.items ≡ [] }
        ensures { let head = heading_in self.now.heard.now.header in
            IfOk result (λ what. (r : Outcome) × IsCutReply (listed_with form head) self.now.heard.now.call.now.limit head (by_step decider.Nobody (option_copied kind.entry)) (T.texts texts.now) r
            × TellsOf self.now r what answer.new.bytes.items answer.new.audit.items) }
    {
        let listing = Listing {
            header: &self.heard.header,
            limit: self.heard.call.limit,
            form,
        };
        put_listed(alloc, &listing, texts, &mut answer.bytes)?;
        self.written(kind, texts.number() == 0, answer)
    }
}
