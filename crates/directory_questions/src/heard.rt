//! What is heard of a call.
ghost use Rattle.std.specs.Prelude.{◌≡◌, MatchOption, Some};
ghost use Rattle.slp_headers.specs.Headers.{heading_in, heading_of};
ghost use Rattle.directory_questions.specs.Requests.{action_of, function_in, IsUnheard};

use crate::call::Call;
use crate::request::Request;
use access_rules::Action;
use slp_wire::{HeaderView, read_header};

/// A call that asks for something that is answered, with its header. It is made once of each message, and lent to whatever
/// serves it.
#[derive(Clone, Copy)]
pub struct Heard<'a> {
    pub call: &'a Call<'a>,
    pub header: HeaderView<'a>,
    pub request: Request,
    ghost headed: { heading_of call.now.bytes.now ≡ Some (heading_in header) },
    ghost asked: { function_in request ≡ header.function },
}

impl<'a> Heard<'a> {
    /// What is heard of a call, where its header is readable and of a function that is answered. Takes no memory.
    pub fn of(call: &'a Call<'a>) -> Option<Heard<'a>>
        ensures { MatchOption result (IsUnheard call.now.bytes.now) (λ h. h.call.now ≡ call.now) }
    {
        let header = read_header(call.bytes)?;
        let request = Request::of(header.function)?;
        Some(Heard {
            call,
            header,
            request,
        })
    }

    /// What the rules are asked about. Takes no memory.
    pub fn action(&self) -> Action
        ensures { result ≡ action_of (heading_in self.now.header) }
    {
        match self.request {
            Request::Registration => Action::Register,
            Request::Withdrawal => Action::Withdraw,
            _ => Action::See,
        }
    }
}
