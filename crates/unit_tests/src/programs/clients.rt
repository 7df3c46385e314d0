use crate::assertion::assert_holds;
use crate::programs::messages::{EMPTY_REPLY, FOUND_REPLY, REGISTRATION, REQUEST, WITHDRAWAL};
use agent_clients::{
    ClientFault, Event, Items, RequestHeader, ServiceAgent, Step, UserAgent, attribute_request,
    registration, service_request, type_request, withdrawal,
};
use slp_messages::{EntryView, RegistrationView};
use std::alloc::Global;
use std::process::Abort;
use std::test::Fail;

const PRINTER: &str = "service:printer:lpr://a";

fn printer(attributes: &str) -> RegistrationView<'_> {
    RegistrationView {
        entry: EntryView {
            lifetime: 300,
            url: PRINTER,
        },
        kind: "service:printer:lpr",
        scopes: "DEFAULT",
        attributes,
    }
}

// What comes at a moment, and what is answered to it.
#[derive(Clone, Copy)]
struct Turn<'a> {
    now: u32,
    event: Event<'a>,
    answer: Result<Step, ClientFault>,
}

fn at(now: u32, event: Event<'_>, answer: Result<Step, ClientFault>) -> Turn<'_> {
    Turn { now, event, answer }
}

// Whether an agent that began to ask at moment 0 answers so, and how many URLs it holds then.
fn are_answered(alloc: Global, turns: &[Turn<'_>]) -> Result<(bool, usize), Fail> {
    let mut agent = Box::new(alloc, UserAgent::new(Vec::from_slice(alloc, &REQUEST)?))?;
    let mut holds = agent.start(0) == Step::Send;
    for turn in turns {
        holds = agent.step(alloc, turn.now, turn.event) == turn.answer && holds;
    }
    let urls = match agent.items() {
        Some(Items::Urls(entries)) => entries.as_slice().len(),
        _ => 0,
    };
    Ok((holds, urls))
}

// Ends the test where an agent does not answer so, or holds another number of URLs.
fn assert_answered(
    rt: &impl Abort,
    alloc: Global,
    turns: &[Turn<'_>],
    urls: usize,
    name: &str,
) -> Result<(), Fail> {
    let told = are_answered(alloc, turns)?;
    assert_holds(rt, told == (true, urls), name);
    Ok(())
}

// Whether a builder gave these bytes.
fn is_spelled(told: Result<Vec<u8>, ClientFault>, bytes: &[u8]) -> bool {
    match told {
        Ok(built) => built.as_slice() == bytes,
        Err(_) => false,
    }
}

// Whether a builder gave so many bytes, and after the header and the empty list of those that have answered these.
fn goes_on(told: Result<Vec<u8>, ClientFault>, length: usize, next: [u8; 2]) -> bool {
    match told {
        Ok(built) => built.len() == length && built.get(18..20) == Some(next.as_slice()),
        Err(_) => false,
    }
}

fn is_too_long(told: Result<Vec<u8>, ClientFault>) -> bool {
    match told {
        Ok(_) => false,
        Err(fault) => fault == ClientFault::TooLong,
    }
}

fn header(xid: u16, language: &str) -> RequestHeader<'_> {
    RequestHeader { xid, language }
}

// A text of so many characters.
fn long_text(alloc: Global, length: usize) -> Result<String, Fail> {
    let mut text = String::new(alloc);
    for _ in 0..length {
        text.push_str("a")?;
    }
    Ok(text)
}

#[test]
fn builders_spell_the_messages(rt: HostRuntime) -> Result<(), Fail> {
    let (alloc, en) = (rt.alloc(), header(1, "en"));
    let told = service_request(alloc, &en, "service:printer", "DEFAULT", "");
    assert_holds(&rt, is_spelled(told, &REQUEST), "a service request");
    let told = registration(alloc, &header(2, "en"), &printer(""));
    assert_holds(&rt, is_spelled(told, &REGISTRATION), "a registration");
    let told = withdrawal(alloc, &header(3, "en"), "DEFAULT", PRINTER, "");
    assert_holds(&rt, is_spelled(told, &WITHDRAWAL), "a withdrawal");
    let told = attribute_request(alloc, &en, PRINTER, "DEFAULT", "");
    assert_holds(&rt, goes_on(told, 56, [0, 23]), "an attribute request");
    let told = type_request(alloc, &en, None, "DEFAULT");
    assert_holds(
        &rt,
        goes_on(told, 29, [0xff, 0xff]),
        "a request for all types",
    );
    let told = type_request(alloc, &en, Some(""), "DEFAULT");
    assert_holds(
        &rt,
        goes_on(told, 29, [0, 0]),
        "one for types without an authority",
    );
    Ok(())
}

#[test]
fn what_is_too_long_has_no_bytes(rt: HostRuntime) -> Result<(), Fail> {
    let alloc = rt.alloc();
    let list = long_text(alloc, 65_536)?;
    let told = registration(alloc, &header(1, "en"), &printer(list.as_str()));
    assert_holds(&rt, is_too_long(told), "attributes of 65,536 bytes");
    let told = service_request(alloc, &header(1, "e n"), "service:printer", "DEFAULT", "");
    assert_holds(&rt, is_too_long(told), "a language that is no tag");
    Ok(())
}

#[test]
fn a_request_is_sent_again_and_given_up(rt: HostRuntime) -> Result<(), Fail> {
    let given_up = Err(ClientFault::GaveUp);
    let turns = [
        at(1, Event::Tick, Ok(Step::Wait(2))),
        at(2, Event::Tick, Ok(Step::Send)),
        at(6, Event::Tick, Ok(Step::Send)),
        at(14, Event::Tick, Ok(Step::Send)),
        at(15, Event::Tick, given_up),
        at(16, Event::Datagram(&FOUND_REPLY), given_up),
    ];
    assert_answered(&rt, rt.alloc(), &turns, 0, "each when it is due")?;
    let late = [
        at(7, Event::Tick, Ok(Step::Send)),
        at(7, Event::Tick, Ok(Step::Wait(14))),
    ];
    assert_answered(&rt, rt.alloc(), &late, 0, "two that are due are one")?;
    Ok(())
}

#[test]
fn replies_count_that_fit(rt: HostRuntime) -> Result<(), Fail> {
    let (alloc, done) = (rt.alloc(), Ok(Step::Done));
    let (mut other, mut cut, mut refused) = (FOUND_REPLY, FOUND_REPLY, EMPTY_REPLY);
    other[11] = 2;
    cut[5] = 0x80;
    refused[17] = 4;
    let skipped = [
        at(1, Event::Datagram(&other), Ok(Step::Wait(2))),
        at(1, Event::Datagram(&FOUND_REPLY), done),
        at(99, Event::Tick, done),
    ];
    assert_answered(&rt, rt.alloc(), &skipped, 1, "another XID is skipped")?;
    let partial = Err(ClientFault::Partial);
    let turns = [
        at(1, Event::Datagram(&cut), Ok(Step::OpenStream)),
        at(2, Event::Stream(&cut), partial),
        at(2, Event::Tick, partial),
    ];
    assert_answered(&rt, rt.alloc(), &turns, 0, "a stream that is cut")?;
    let failed = [at(1, Event::StreamFailed, Err(ClientFault::Io))];
    assert_answered(&rt, rt.alloc(), &failed, 0, "a stream that failed")?;
    let code = Err(ClientFault::Code(4));
    let turns = [
        at(1, Event::Datagram(&refused), code),
        at(2, Event::Datagram(&FOUND_REPLY), code),
    ];
    assert_answered(&rt, rt.alloc(), &turns, 0, "a code stays")?;
    Ok(())
}

// The found reply with a longer URL, so that it has 710 bytes, and with these flags.
fn long_reply(alloc: Global, flags: u8) -> Result<Vec<u8>, Fail> {
    let mut front = FOUND_REPLY;
    front[3] = 0x02;
    front[4] = 0xc6;
    front[5] = flags;
    front[23] = 0x02;
    front[24] = 0xac;
    let mut reply = Vec::from_slice(alloc, &front[..48])?;
    for _ in 0..661 {
        reply.push(b'a')?;
    }
    reply.push(0)?;
    Ok(reply)
}

#[test]
fn what_is_cut_is_asked_on_a_stream(rt: HostRuntime) -> Result<(), Fail> {
    let alloc = rt.alloc();
    let mut cut = FOUND_REPLY;
    cut[5] = 0x80;
    let whole = long_reply(alloc, 0)?;
    let mut long = long_reply(alloc, 0x80)?;
    long.truncate(700);
    for bytes in [&cut[..], &cut[..30], long.as_slice()] {
        let turns = [
            at(1, Event::Datagram(bytes), Ok(Step::OpenStream)),
            at(2, Event::Datagram(&FOUND_REPLY), Ok(Step::Wait(16))),
            at(3, Event::Stream(whole.as_slice()), Ok(Step::Done)),
        ];
        assert_answered(&rt, rt.alloc(), &turns, 1, "a stream for what is cut")?;
    }
    Ok(())
}

// Whether a message that is no whole reply is skipped, as a datagram and on a stream: the times go on.
fn is_skipped(alloc: Global, bytes: &[u8], cut: &[u8]) -> Result<bool, Fail> {
    let by_datagram = [
        at(1, Event::Datagram(bytes), Ok(Step::Wait(2))),
        at(2, Event::Datagram(bytes), Ok(Step::Send)),
        at(15, Event::Datagram(bytes), Err(ClientFault::GaveUp)),
    ];
    let by_stream = [
        at(1, Event::Datagram(cut), Ok(Step::OpenStream)),
        at(2, Event::Stream(bytes), Ok(Step::Wait(16))),
        at(15, Event::Stream(bytes), Ok(Step::Wait(16))),
        at(16, Event::Stream(bytes), Err(ClientFault::GaveUp)),
    ];
    Ok(
        are_answered(alloc, &by_datagram)? == (true, 0)
            && are_answered(alloc, &by_stream)? == (true, 0),
    )
}

#[test]
fn what_is_no_reply_is_skipped(rt: HostRuntime) -> Result<(), Fail> {
    let (mut many, mut foreign, mut advert) = (FOUND_REPLY, FOUND_REPLY, FOUND_REPLY);
    many[18] = 0xff;
    many[19] = 0xff;
    foreign[1] = 99;
    advert[1] = 8;
    let mut cut = FOUND_REPLY;
    cut[5] = 0x80;
    for (bytes, name) in [
        (&many[..], "a count of 65,535 with one entry"),
        (&foreign[..], "a function that is none"),
        (&advert[..], "an advert with another body"),
        (&FOUND_REPLY[..48], "a byte less than the length says"),
    ] {
        assert_holds(&rt, is_skipped(rt.alloc(), bytes, &cut)?, name);
    }
    Ok(())
}

// The first step of an agent with a request of so many bytes.
fn first_step(alloc: Global, length: usize) -> Result<Step, Fail> {
    let request = vec![in alloc; 0; length]?;
    let mut agent = Box::new(alloc, UserAgent::new(request))?;
    Ok(agent.start(0))
}

#[test]
fn a_long_request_opens_a_stream(rt: HostRuntime) -> Result<(), Fail> {
    let alloc = rt.alloc();
    assert_holds(&rt, first_step(alloc, 1_400)? == Step::Send, "1,400 bytes");
    assert_holds(
        &rt,
        first_step(alloc, 1_401)? == Step::OpenStream,
        "1,401 bytes",
    );
    Ok(())
}

// The length, the number and the flags of the one message that is due at a moment; nothing of none or of several.
fn due_at(
    alloc: Global,
    agent: &mut ServiceAgent,
    now: u32,
) -> Result<Option<(usize, u8, u8)>, Fail> {
    let mut messages = Vec::new(alloc);
    agent.turn(alloc, now, &mut messages)?;
    let [message] = messages.as_slice() else {
        return Ok(None);
    };
    match message.as_slice() {
        [_, _, _, _, _, flags, _, _, _, _, _, xid, ..] => Ok(Some((message.len(), *xid, *flags))),
        _ => Ok(None),
    }
}

#[test]
fn a_registration_is_kept_and_withdrawn(rt: HostRuntime) -> Result<(), Fail> {
    let alloc = rt.alloc();
    let mut agent = Box::new(alloc, ServiceAgent::new(alloc))?;
    agent.keep(alloc, registration(alloc, &header(2, "en"), &printer(""))?)?;
    for (now, told) in [
        (0, Some((78, 1, 0x40))),
        (149, None),
        (150, Some((78, 2, 0x40))),
    ] {
        assert_holds(&rt, due_at(alloc, &mut agent, now)? == told, "what is due");
    }
    let told = agent.forget(alloc, PRINTER, "EN")?;
    assert_holds(
        &rt,
        told.as_ref().map(|bytes| bytes.as_slice()) == Some(WITHDRAWAL.as_slice()),
        "a withdrawal",
    );
    let again = agent.forget(alloc, PRINTER, "en")?;
    assert_holds(&rt, again.is_none(), "nothing is kept any more");
    assert_holds(
        &rt,
        due_at(alloc, &mut agent, 9_999)?.is_none(),
        "nothing is due any more",
    );
    Ok(())
}
