// The register of each launch and class.
ghost use Rattle.std.specs.Prelude.{◌≡◌, ◌&&◌, ◌<◌, IfSome, length, position};
ghost use Rattle.schedule_meaning.specs.Launches as launches;
ghost use Rattle.register_assign.specs.Listings as listings;
ghost use Rattle.register_assign.specs.PoolPlaces.{ArePlaces};
ghost use Rattle.schedule_meaning.specs.Readers.{is_intact, passes};

use alpha_encode::Second;
use graph_meaning::LaunchGraph;
use machine_table::Table;
use schedule_meaning::{Allocation, Launch, input_for, may_take, pin_of};

/// Launches in word order, with their graph and table, and the place of each in the pool.
#[derive(Clone, Copy)]
pub(crate) struct Ordered<'a> {
    pub(crate) graph: &'a LaunchGraph,
    pub(crate) table: &'a Table,
    pub(crate) allocation: Allocation,
    pub(crate) launches: &'a [Launch],
    pub(crate) places: &'a [usize],
    ghost all: { length places.now ≡ length launches.now },
    ghost are: { ArePlaces graph.now allocation launches.now places.now },
}

impl<'a> Ordered<'a> {
    /// The pin to which the launch at a place goes.
    fn pin_at(&self, place: usize) -> Option<u8>
        ensures { result ≡ listings.pin_at self.now.graph.now self.now.launches.now place }
    {
        match self.launches.get(place) {
            Some(launch) => pin_of(self.graph, launch.to),
            None => None,
        }
    }

    /// The register that the launch at a place writes.
    pub(crate) fn register_at(&self, place: usize) -> u8
        requires { place < length self.now.launches.now }
        ensures { result
            ≡ listings.register_at self.now.graph.now self.now.allocation self.now.launches.now place }
    {
        if let Some(pin) = self.pin_at(place) {
            return pin;
        }
        match self.graph.pool.as_slice().get(self.places[place]) {
            Some(register) => *register,
            None => 0,
        }
    }

    /// The first launch that gives the class's word and is ready for the reader.
    fn first_giving(&self, reader: Option<Launch>, class: u32) -> Option<usize>
        ensures first { result ≡ position
            (λ l. launches.gives self.now.graph.now class l && passes self.now.graph.now self.now.table.now reader l)
            self.now.launches.now }
        ensures inside { IfSome result (λ place. place < length self.now.launches.now) }
    {
        for (place, launch) in self.launches.iter().enumerate() {
            if may_take(self.graph, self.table, reader, class, *launch) {
                return Some(place);
            }
        }
        None
    }

    /// The register that a reader finds the class's word in; without a reader, that of the end.
    pub(crate) fn register_by(&self, reader: Option<Launch>, class: u32) -> u8
        ensures { result ≡ listings.register_by self.now.graph.now self.now.allocation self.now.launches.now
            (is_intact self.now.graph.now self.now.launches.now reader)
            (passes self.now.graph.now self.now.table.now reader) class }
    {
        if self.graph.is_zero_class(class) {
            return 31;
        }
        if let Some(register) = input_for(self.graph, self.launches, reader, class) {
            return register;
        }
        match self.first_giving(reader, class) {
            Some(place) => self.register_at(place),
            None => 31,
        }
    }

    /// The second operand of an operate.
    pub(crate) fn second_for(&self, reader: Launch, class: u32) -> Second
        ensures { result ≡ listings.second_for self.now.graph.now self.now.table.now self.now.allocation
            self.now.launches.now reader class }
    {
        if let Some(constant) = self.graph.constant_of(class) {
            if constant <= 255 {
                return Second::Literal(constant as u8);
            }
        }
        Second::Reg(self.register_by(Some(reader), class))
    }
}
