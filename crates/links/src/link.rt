// A link of two ends over two paths.
ghost use Rattle.std.specs.Prelude.{◌≡◌, [], IfOk, MatchResult};
ghost use Rattle.links.specs.Links.{sight, seen, aircraft_of, ground_of, Made, Unmade, Steps, ServedAt};
ghost use Rattle.links.specs.Laws.{LinkLaw};
ghost use Rattle.runs.specs.Links.{Run};

use crate::served::serve;
use crate::station::Stations;
use calls::{Answer, Call, LinkFault, Side};
use directions::{Downlink, Uplink};
use ends::{End, Memory};
use paths::{AirPath, drain};

// The aircraft end and the ground end of one registration, the path that downlinks take, and the one that uplinks take.
#[derive(Drop)]
pub struct Link<P, Q> {
    pub(crate) aircraft: End<Downlink, Uplink>,
    pub(crate) ground: End<Uplink, Downlink>,
    pub(crate) down: P,
    pub(crate) up: Q,
}

impl<P: AirPath + Drop, Q: AirPath + Drop> Link<P, Q> {
    // A new link of one registration, its paths emptied; or the first setting that is outside its limits, the aircraft's before the ground's.
    pub fn new(
        memory: (Memory, Memory),
        stations: Stations,
        mut down: P,
        mut up: Q,
    ) -> Result<Link<P, Q>, LinkFault>
        ensures made { MatchResult result (λ l. Made P.AirPath.strings Q.AirPath.strings P.AirPath.takes Q.AirPath.takes (aircraft_of stations) (ground_of stations) (P.AirPath.sees down) (Q.AirPath.sees up) (sight P.AirPath.sees Q.AirPath.sees l)) (Unmade (aircraft_of stations) (ground_of stations)) }
        ensures run { IfOk result (λ l. Run [] (seen P.AirPath.strings Q.AirPath.strings (sight P.AirPath.sees Q.AirPath.sees l))) }
    {
        let registration = stations.registration;
        let aircraft = End::new(memory.0, stations.aircraft.with(registration))?;
        let ground = End::new(memory.1, stations.ground.with(registration))?;
        drain(&mut down);
        drain(&mut up);
        Ok(Link {
            aircraft,
            ground,
            down,
            up,
        })
    }

    // Serves a call at one end: it answers by the definition of that call, and is a step of a run; and the law of all runs.
    pub fn serve(&mut self, side: Side, call: Call<'_>, buffer: &mut [u8]) -> Answer
        ensures exact { ServedAt P.AirPath.strings Q.AirPath.strings P.AirPath.puts P.AirPath.takes Q.AirPath.puts Q.AirPath.takes side (sight P.AirPath.sees Q.AirPath.sees self.old) buffer.old call.entry result (sight P.AirPath.sees Q.AirPath.sees self.new) buffer.new }
        ensures step { Steps P.AirPath.strings Q.AirPath.strings side call.entry result buffer.old buffer.new (sight P.AirPath.sees Q.AirPath.sees self.old) (sight P.AirPath.sees Q.AirPath.sees self.new) }
        ensures law { LinkLaw }
    {
        match side {
            Side::Aircraft => serve(
                &mut self.aircraft,
                &mut self.down,
                &mut self.up,
                call,
                buffer,
            ),
            Side::Ground => serve(&mut self.ground, &mut self.up, &mut self.down, call, buffer),
        }
    }
}
