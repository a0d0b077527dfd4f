//! Where a sheet has the tags that a listing shows.

ghost use Rattle.std.specs.Prelude.{◌≡◌, ◌≤◌, ◌<◌, ◌+◌, [], length, All};
ghost use Rattle.item_model.specs.Projection.{first_mentions};
ghost use Rattle.listing_plan.specs.Runs.{AreRuns, IsWithin, Joins, Mentions};

use item_model::Property;
use row_sheets::index_of;
use std::marker::Model;

/// Properties that are neighbours on a sheet and are all shown: from the index `from` up to the index `to`.
#[derive(Clone, Copy, Drop)]
pub(crate) struct Run {
    pub(crate) from: usize,
    pub(crate) to: usize,
}

/// The runs of a sheet. It does not allocate, since there are at most 26 properties.
#[derive(Drop)]
pub(crate) struct Runs {
    room: [Run; 26],
    len: usize,
}

impl Model for Runs {
    ghost use Rattle.std.specs.Prelude.{List, take, ◌≤◌};
    ghost use Rattle.listing_plan.specs.declared.runs.Run.{Run};

    ghost Value = { List Run };

    ghost view = { λ a. take a.len a.room };

    ghost invariant = { λ a. a.len ≤ 26 };
}

impl Runs {
    /// Returns the runs of the properties `asked`, in their order.
    pub(crate) fn of(properties: &[Property], asked: &[Property]) -> Runs
        requires { first_mentions asked.now ≡ asked.now }
        ensures { AreRuns properties.now asked.now result }
    {
        let mut runs = Runs::new();
        for property in asked {
            runs.mention(properties, *property);
        }
        runs
    }

    pub(crate) fn as_slice(&self) -> &[Run]
        ensures { result.now ≡ self.now }
    {
        let (runs, _) = self.room.split_at(self.len);
        runs
    }

    fn new() -> Runs
        ensures { result ≡ [] }
    {
        Runs {
            room: [Run { from: 0, to: 0 }; 26],
            len: 0,
        }
    }

    // Adds a property, if the sheet has it.
    fn mention(&mut self, properties: &[Property], property: Property)
        requires room { length self.old < 26 }
        requires within { All (IsWithin properties.now) self.old }
        ensures few { length self.new ≤ length self.old + 1 }
        ensures mentions { Mentions properties.now property self.old self.new }
    {
        match index_of(properties, property) {
            Some(index) => self.add(Run {
                from: index,
                to: index + 1,
            }),
            None => {}
        }
    }

    // Adds a run. If the last one ends where it starts, the two are one.
    fn add(&mut self, run: Run)
        requires { length self.old < 26 }
        ensures few { length self.new ≤ length self.old + 1 }
        ensures joins { Joins run self.old self.new }
    {
        if self.len > 0 && self.room[self.len - 1].to == run.from {
            self.room[self.len - 1].to = run.to;
            return;
        }
        self.room[self.len] = run;
        self.len += 1;
    }
}
