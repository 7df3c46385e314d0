//! What a message asks for, by its function.
ghost use Rattle.std.specs.Prelude.{◌≡◌, IfNone, IfSome, Some};
ghost use Rattle.slp_headers.specs.Headers.{reply_function_of};
ghost use Rattle.directory_questions.specs.Answers.{is_change_of};
ghost use Rattle.directory_questions.specs.Requests as spec;
ghost use Rattle.directory_questions.specs.Requests.{function_in, IsUnanswered};

use slp_wire::{function, read_header};

/// What a message asks for, of what a directory answers (RFC 2608, sections 8 to 10).
#[derive(Clone, Copy)]
pub enum Request {
    Services,
    Registration,
    Withdrawal,
    Attributes,
    Types,
}

impl Request {
    /// What a message of a function asks for, where the function is one that is answered. Takes no memory.
    pub fn of(function: u8) -> Option<Request>
        ensures some { IfSome result (λ r. function_in r ≡ function) }
        ensures none { IfNone result (IsUnanswered function) }
    {
        match function {
            function::SERVICE_REQUEST => Some(Request::Services),
            function::REGISTRATION => Some(Request::Registration),
            function::WITHDRAWAL => Some(Request::Withdrawal),
            function::ATTRIBUTE_REQUEST => Some(Request::Attributes),
            function::TYPE_REQUEST => Some(Request::Types),
            _ => None,
        }
    }

    /// Whether it asks for a change. All others ask a question. Takes no memory.
    pub fn is_change(self) -> bool
        ensures { result ≡ spec.is_change_function (function_in self) }
    {
        matches!(self, Request::Registration | Request::Withdrawal)
    }

    /// Whether it asks a question. Takes no memory.
    pub fn is_question(self) -> bool
        ensures { result ≡ spec.is_question_function (function_in self) }
    {
        !self.is_change()
    }

    /// The function of its reply. Takes no memory.
    pub fn reply_function(self) -> u8
        ensures { reply_function_of (function_in self) ≡ Some result }
    {
        match self {
            Request::Services => function::SERVICE_REPLY,
            Request::Registration | Request::Withdrawal => function::ACKNOWLEDGEMENT,
            Request::Attributes => function::ATTRIBUTE_REPLY,
            Request::Types => function::TYPE_REPLY,
        }
    }
}

/// Whether bytes ask for a change: they have a readable header of a registration or a withdrawal.
/// Takes no memory.
pub fn is_change(bytes: &[u8]) -> bool
    ensures { result ≡ is_change_of bytes.now }
{
    match read_header(bytes) {
        Some(header) => match Request::of(header.function) {
            Some(request) => request.is_change(),
            None => false,
        },
        None => false,
    }
}
