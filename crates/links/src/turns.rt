// Serving calls in turn.
ghost use Rattle.std.specs.Prelude.{◌≡◌, IfOk, IfErr};
ghost use Rattle.links.specs.Links.{sight, aircraft_of, ground_of, ServedAt};
ghost use Rattle.links.specs.Laws.{LinkLaw};
ghost use Rattle.links.specs.Turns.{Served, GoesOn, Ran, Began, NotBegun};

use crate::link::Link;
use crate::request::Request;
use crate::station::Stations;
use arrayvec::ArrayVec;
use calls::{Answer, LinkFault};
use ends::Memory;
use paths::AirPath;

impl<P: AirPath + Drop, Q: AirPath + Drop> Link<P, Q> {
    // Serves calls in turn, and puts their answers behind those that stand there; refused where there is no room for all, and then nothing is served.
    pub fn serve_all<const N: usize>(
        &mut self,
        requests: &[Request<'_>],
        answers: &mut ArrayVec<Option<Answer>, N>,
        buffer: &mut [u8],
    ) -> Result<(), LinkFault>
        ensures exact { Served (ServedAt P.AirPath.strings Q.AirPath.strings P.AirPath.puts P.AirPath.takes Q.AirPath.puts Q.AirPath.takes) N (sight P.AirPath.sees Q.AirPath.sees self.old) buffer.old requests.now answers.old.items result answers.new.items (sight P.AirPath.sees Q.AirPath.sees self.new) buffer.new }
        ensures run { IfOk result (λ u. GoesOn P.AirPath.strings Q.AirPath.strings (sight P.AirPath.sees Q.AirPath.sees self.old) requests.now answers.old.items answers.new.items (sight P.AirPath.sees Q.AirPath.sees self.new)) }
        ensures law { LinkLaw }
    {
        if answers.remaining_capacity() < requests.len() {
            return Err(LinkFault::Buffer);
        }
        for request in requests {
            answers.push(Some(self.serve(request.side, request.call, buffer)));
        }
        Ok(())
    }

    // Makes a new link and serves calls in turn; refused as the making of a link is, or where there is no room for all answers, and then no call is served.
    pub fn run<const N: usize>(
        memory: (Memory, Memory),
        stations: Stations,
        down: P,
        up: Q,
        requests: &[Request<'_>],
        answers: &mut ArrayVec<Option<Answer>, N>,
        buffer: &mut [u8],
    ) -> Result<Link<P, Q>, LinkFault>
        ensures exact { IfOk result (λ l. Ran P.AirPath.strings Q.AirPath.strings P.AirPath.puts P.AirPath.takes Q.AirPath.puts Q.AirPath.takes N (aircraft_of stations) (ground_of stations) (P.AirPath.sees down) (Q.AirPath.sees up) buffer.old requests.now answers.old.items answers.new.items (sight P.AirPath.sees Q.AirPath.sees l) buffer.new) }
        ensures run { IfOk result (λ l. Began P.AirPath.strings Q.AirPath.strings requests.now answers.old.items answers.new.items (sight P.AirPath.sees Q.AirPath.sees l)) }
        ensures refused { IfErr result (NotBegun N (aircraft_of stations) (ground_of stations) requests.now answers.old.items answers.new.items buffer.old buffer.new) }
        ensures law { LinkLaw }
    {
        let mut link = Link::new(memory, stations, down, up)?;
        link.serve_all(requests, answers, buffer)?;
        Ok(link)
    }
}
