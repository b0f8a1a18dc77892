// A link to be tried: making it, and asking each call of it.
use calls::{Answer, Call, Heard, Label, LinkFault, Outcome, Side, Ticked};
use ends::Memory;
use lines::FrameLine;
use links::{Link, Station, Stations};
use paths::FadeBox;
use std::alloc::Global;
use std::process::Abort;
use std::test::Fail;

pub(crate) const LABEL: Label = Label(*b"10");

pub(crate) const STATION: Station = Station {
    originator: b'M',
    flight: *b"ZZ0001",
    low: 10_000,
    high: 25_000,
    limit: 3,
    contact: 120_000,
};

pub(crate) const STATIONS: Stations = Stations {
    registration: *b"..AB123",
    aircraft: STATION,
    ground: STATION,
};

// Memory for both ends.
pub(crate) fn memory(heap: Global) -> Result<(Memory, Memory), Fail> {
    Ok((Memory::reserve(heap)?, Memory::reserve(heap)?))
}

// A line that holds 4,096 octets, below a fade box with these fates; then all strings go intact.
pub(crate) fn path(heap: Global, fates: &[u8]) -> Result<FadeBox<FrameLine>, Fail> {
    let line = FrameLine::new(lines::Memory::reserve(heap, 4096)?);
    Ok(FadeBox::new(line, fates))
}

// The number of a refusal, and its place.
pub(crate) fn named(fault: LinkFault) -> (u8, Option<usize>) {
    (fault.number(), fault.place())
}

// The refusal that an answer is, if it is one.
pub(crate) fn fault_of(answer: Answer) -> Option<LinkFault> {
    match answer {
        Answer::Submit(result) => result.err(),
        Answer::Withdraw(result) => result.err(),
        Answer::Tick(result) => result.err(),
        Answer::Hear(result) => result.err(),
        Answer::Collect(result) => result.err(),
        Answer::Outcome(result) => result.err(),
    }
}

// A link, each of whose calls has to answer as its trial says.
#[derive(Drop)]
pub(crate) struct Talk {
    pub(crate) link: Link<FadeBox<FrameLine>, FadeBox<FrameLine>>,
}

impl Talk {
    // A new link; its path down has these fates, and its path up those.
    pub(crate) fn fading(heap: Global, down: &[u8], up: &[u8]) -> Result<Talk, Fail> {
        let down = path(heap, down)?;
        let up = path(heap, up)?;
        let link = Link::new(memory(heap)?, STATIONS, down, up)?;
        Ok(Talk { link })
    }

    // A new link whose paths bring every string.
    pub(crate) fn new(heap: Global) -> Result<Talk, Fail> {
        Talk::fading(heap, &[], &[])
    }

    // A call that leaves buffers alone answers so.
    fn answers(&mut self, rt: &impl Abort, side: Side, call: Call<'_>, answer: Answer) {
        assert_eq!(rt; self.link.serve(side, call, &mut []), answer);
    }

    pub(crate) fn submits(&mut self, rt: &impl Abort, side: Side, text: &[u8], number: u64) {
        let call = Call::Submit { label: LABEL, text };
        self.answers(rt, side, call, Answer::Submit(Ok(number)));
    }

    pub(crate) fn withdraws(&mut self, rt: &impl Abort, side: Side, number: u64) {
        let call = Call::Withdraw { number };
        self.answers(rt, side, call, Answer::Withdraw(Ok(())));
    }

    // A tick at a time, with a draw of 0.
    pub(crate) fn ticks(&mut self, rt: &impl Abort, side: Side, time: u64, ticked: Ticked) {
        let call = Call::Tick { time, draw: 0 };
        self.answers(rt, side, call, Answer::Tick(Ok(ticked)));
    }

    pub(crate) fn hears(&mut self, rt: &impl Abort, side: Side, heard: Heard) {
        self.answers(rt, side, Call::Hear, Answer::Hear(Ok(heard)));
    }

    pub(crate) fn tells(&mut self, rt: &impl Abort, side: Side, number: u64, outcome: Outcome) {
        let answer = Answer::Outcome(Ok((number, outcome)));
        self.answers(rt, side, Call::Outcome, answer);
    }

    // A collect hands out this text, and leaves the buffer behind it.
    pub(crate) fn collects(&mut self, rt: &impl Abort, side: Side, text: &[u8]) {
        let mut buffer = [0xEE; 3520];
        let answer = self.link.serve(side, Call::Collect, &mut buffer);
        assert_eq!(rt; answer, Answer::Collect(Ok((LABEL, text.len()))));
        holds(rt, &buffer, text);
    }

    // A call is refused by this number, at this place, and leaves the buffer.
    pub(crate) fn refuses(
        &mut self,
        rt: &impl Abort,
        side: Side,
        call: Call<'_>,
        refusal: (u8, Option<usize>),
    ) {
        let mut buffer = [0xEE; 3520];
        let answer = self.link.serve(side, call, &mut buffer);
        assert_eq!(rt; fault_of(answer).map(named), Some(refusal));
        holds(rt, &buffer, b"");
    }

    // A message goes out in one block, completes at the other end and is acknowledged by a response.
    pub(crate) fn delivers(
        &mut self,
        rt: &impl Abort,
        from: Side,
        to: Side,
        text: &[u8],
        number: u64,
    ) {
        self.submits(rt, from, text, number);
        self.ticks(rt, from, 0, Ticked::Block);
        self.hears(rt, to, Heard::Complete);
        self.acknowledges(rt, to, from);
        self.tells(rt, from, number, Outcome::Delivered);
    }

    // An end owes an acknowledgment, and a response brings it to the other end.
    pub(crate) fn acknowledges(&mut self, rt: &impl Abort, from: Side, to: Side) {
        self.ticks(rt, from, 0, Ticked::Response);
        self.hears(rt, to, Heard::Response);
    }
}

// A buffer that was all EE hex holds a text, and EE hex behind it.
pub(crate) fn holds(rt: &impl Abort, buffer: &[u8], text: &[u8]) {
    assert!(rt; buffer.starts_with(text));
    assert!(rt; buffer.iter().skip(text.len()).all(|x| *x == 0xEE));
}
