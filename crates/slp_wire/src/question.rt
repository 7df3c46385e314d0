ghost use Rattle.std.specs.Prelude.{◌≡◌};
ghost use Rattle.slp_wire.specs.Asking as spec;

use slp_messages::{AttributeRequestView, ServiceRequestView, TypeRequestView};

/// A request for services, attributes or types, lent (RFC 2608, sections 8.1, 10.1 and 10.3).
#[derive(Clone, Copy)]
pub enum QuestionView<'a> {
    Services(ServiceRequestView<'a>),
    Attributes(AttributeRequestView<'a>),
    Types(TypeRequestView<'a>),
}

impl<'a> QuestionView<'a> {
    /// Who has answered it already: the previous responders, between commas.
    pub fn responders(&self) -> &'a str
        ensures { result.now ≡ spec.responders_in self.now }
    {
        match self {
            QuestionView::Services(request) => request.responders,
            QuestionView::Attributes(request) => request.responders,
            QuestionView::Types(request) => request.responders,
        }
    }
}
