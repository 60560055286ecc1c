//! A word from which the numbers of bundles are drawn, and who may draw them.
#![tactic(auto)]

ghost use Rattle.std.specs.Prelude.{◌≡◌, ℕ, ◌+◌, ◌-◌, ◌^◌, ◌<◌, ◌≤◌, true, false, List, [], ◌∷◌, ◌++◌, IfOk, IfSome, IfNone, OnSome, length, All, ◌||◌};
ghost use Rattle.dc_pool.specs.Drawing.{weight, weight_below, past_count, view, ceiling, SameBelow};

use crate::rule::{Draw, EachOnce, Made, OneSeat, View};
use atomic_table::{Seat, Table};
use dc_path::{List, OutOfMemory};
use std::alloc::Global;

/// A word from which the numbers of bundles are drawn, counted from 0. Each is given to one drawer, once.
#[derive(Drop)]
pub struct Draws {
    table: Table<u8, View, Made, EachOnce, Global>,
    bundles: u32,
    seats: u32,
    ghost told: { (table.shared.key.bundles ≡ bundles) × (table.shared.key.seats ≡ seats) },
    ghost small: { bundles + seats < 2 ^ 33 },
    ghost wide: { table.shared.table_id.words ≡ 2 },
    ghost bare: { table.shared.table_id.slots ≡ 0 },
}

/// A seat at `Draws`, or several that were put together.
#[derive(Drop)]
pub struct Drawer {
    seat: Seat<u8, View>,
    bundles: u32,
    ended: bool,
    ghost bare: { seat.me.1 ≡ [] },
    ghost room: { ended ≡ false → past_count bundles seat.me.0.drawn < seat.me.0.seats },
    ghost over: { ended ≡ true → 0 < past_count bundles seat.me.0.drawn },
}

// Whether one of the two holds.
fn any(a: bool, b: bool) -> bool
    ensures { result ≡ (a || b) }
{
    a || b
}

impl Draws {
    ghost use Rattle.dc_pool.specs.Drawers.{bundle_count, seat_count, drawn_by, seats_of, is_over, AreTogether, IsNew};

    // Draws, and one drawer with all their seats.
    fn first(alloc: Global, bundles: u32, seats: u32) -> Result<(Draws, Drawer), OutOfMemory>
        requires { 0 < seats }
        ensures { IfOk result (λ r. (r.0.bundles ≡ bundles) × (r.0.seats ≡ seats) × (r.1.bundles ≡ bundles) × (r.1.seat.table_id ≡ r.0.table.shared.table_id) × (r.1.ended ≡ false) × (r.1.seat.me.0 ≡ view [] seats)) }
    {
        let (table, seat) = Table::of_words(
            alloc,
            &[0, u64::from(bundles)],
            &Made { bundles, seats },
        )?;
        Ok((
            Draws {
                table,
                bundles,
                seats,
            },
            Drawer {
                seat,
                bundles,
                ended: false,
            },
        ))
    }

    // Gives one seat away.
    fn give_one(&self, drawer: &mut Drawer) -> Drawer
        requires own { (drawer.old.seat.table_id ≡ self.now.table.shared.table_id) × (drawer.old.bundles ≡ self.now.bundles) × (drawer.old.ended ≡ false) }
        requires two { (drawer.old.seat.me.0.drawn ≡ []) × (2 ≤ drawer.old.seat.me.0.seats) }
        ensures left { (drawer.new.seat.table_id ≡ drawer.old.seat.table_id) × (drawer.new.bundles ≡ drawer.old.bundles) × (drawer.new.ended ≡ false) × (drawer.new.seat.me.0.drawn ≡ []) × (drawer.new.seat.me.0.seats ≡ drawer.old.seat.me.0.seats - 1) }
        ensures right { (result.seat.table_id ≡ drawer.old.seat.table_id) × (result.bundles ≡ drawer.old.bundles) × (result.ended ≡ false) × (result.seat.me.0 ≡ view [] 1) }
    {
        let seat = self.table.shared.split_seat::<OneSeat>(&mut drawer.seat);
        Drawer {
            seat,
            bundles: self.bundles,
            ended: false,
        }
    }

    /// Draws for so many bundles, and so many drawers, each of which has one seat and has drawn nothing.
    ///
    /// `OutOfMemory` is the one error.
    pub fn new(
        alloc: Global,
        bundles: u32,
        seats: u32,
    ) -> Result<(Draws, List<Drawer>), OutOfMemory>
        requires { 0 < seats }
        ensures bundles { IfOk result (λ made. bundle_count made.0 ≡ bundles) }
        ensures seats { IfOk result (λ made. seat_count made.0 ≡ seats) }
        ensures drawers { IfOk result (λ made. length made.1 ≡ seats) }
        ensures fresh { IfOk result (λ made. All (IsNew made.0) made.1) }
    {
        let (draws, mut first) = Draws::first(alloc, bundles, seats)?;
        let mut drawers = List::new(alloc);
        for _ in 1..seats {
            drawers.add(draws.give_one(&mut first))?;
        }
        drawers.add(first)?;
        Ok((draws, drawers))
    }

    // The one step of a draw: the number that the word has, and the word is one more. Before it the seat has drawn no number past the
    // bundles for each of its seats.
    fn step(&self, seat: &mut Seat<u8, View>, bundles: u32) -> u64
        requires mine { (seat.old.table_id ≡ self.now.table.shared.table_id) × (bundles ≡ self.now.bundles) }
        requires room { past_count bundles seat.old.me.0.drawn < seat.old.me.0.seats }
        ensures same { (seat.new.table_id ≡ seat.old.table_id) × (seat.new.me.0.seats ≡ seat.old.me.0.seats) × (seat.new.me.1 ≡ seat.old.me.1) }
        ensures drawn { seat.new.me.0.drawn ≡ seat.old.me.0.drawn ++ result ∷ [] }
        ensures above { ceiling seat.old.me.0.drawn ≤ result }
        ensures early { result < bundles → past_count bundles seat.new.me.0.drawn ≡ past_count bundles seat.old.me.0.drawn }
        ensures late { bundles ≤ result → 0 < past_count bundles seat.new.me.0.drawn }
        ensures none { bundles ≤ result → SameBelow bundles seat.old.me.0.drawn seat.new.me.0.drawn }
    {
        self.table.shared.fetch_add::<Draw>(seat, 0, 1)
    }

    /// The next bundle, which no other draw gives; `None` where all were given.
    ///
    /// It is one atomic step. After `None` the drawer is over: each later draw of it is `None`, and makes no step. That no other draw
    /// gave the bundle, and that after `None` all were given, is what `finish` says once all drawers are put together.
    pub fn draw(&self, drawer: &mut Drawer) -> Option<u32>
        requires { AreTogether self.now drawer.old }
        ensures together { AreTogether self.now drawer.new }
        ensures seats { seats_of drawer.new ≡ seats_of drawer.old }
        ensures below { IfSome result (λ bundle. bundle < bundle_count self.now) }
        ensures drawn { IfSome result (λ bundle. drawn_by drawer.new ≡ drawn_by drawer.old ++ bundle ∷ []) }
        ensures above { IfSome result (λ bundle. ceiling (drawn_by drawer.old) ≤ bundle) }
        ensures going { OnSome result ((is_over drawer.old ≡ false) × (is_over drawer.new ≡ false)) }
        ensures over { IfNone result (is_over drawer.new ≡ true) }
        ensures none { IfNone result (SameBelow (bundle_count self.now) (drawn_by drawer.old) (drawn_by drawer.new)) }
        ensures again { is_over drawer.old ≡ true → drawn_by drawer.new ≡ drawn_by drawer.old }
    {
        if drawer.ended {
            return None;
        }
        let found = self.step(&mut drawer.seat, drawer.bundles);
        if found < u64::from(drawer.bundles) {
            return Some(found as u32);
        }
        drawer.ended = true;
        None
    }

    /// Puts the seats of another drawer, and what it drew, into this one.
    pub fn put_together(&self, drawer: &mut Drawer, other: Drawer)
        requires mine { AreTogether self.now drawer.old }
        requires theirs { AreTogether self.now other }
        ensures together { AreTogether self.now drawer.new }
        ensures drawn { drawn_by drawer.new ≡ drawn_by drawer.old ++ drawn_by other }
        ensures seats { seats_of drawer.new ≡ seats_of drawer.old + seats_of other }
        ensures over { is_over drawer.new ≡ (is_over drawer.old || is_over other) }
    {
        let Drawer {
            seat,
            bundles: _,
            ended,
        } = other;
        self.table
            .shared
            .join_seat::<OneSeat>(&mut drawer.seat, seat);
        drawer.ended = any(drawer.ended, ended);
    }

    /// Takes the drawer that has all seats back, and answers the number to which the word has come.
    ///
    /// Each number below it was drawn exactly once, and no other number was. Where a drawer is over, all bundles were given.
    pub fn finish(self, drawer: Drawer) -> u64
        requires together { AreTogether self drawer }
        requires all { seats_of drawer ≡ seat_count self }
        ensures once { (h : ℕ → ℕ) → weight h (drawn_by drawer) ≡ weight_below h result }
        ensures over { is_over drawer ≡ true → bundle_count self < result }
    {
        let Draws {
            table,
            bundles: _,
            seats: _,
        } = self;
        let Drawer {
            seat,
            bundles: _,
            ended: _,
        } = drawer;
        let closed = table.close_with(seat);
        let next = closed.word(0);
        closed.free();
        next
    }
}
