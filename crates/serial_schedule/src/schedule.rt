//! The schedule.

mod beginning;
mod giving;

ghost use Rattle.std.specs.Prelude.{◌≡◌, ◌<◌, ◌≤◌, ◌&&◌, length, map, nat_lt, false, IfOk, OnOk, OnErr};
ghost use Rattle.std.specs.List.{AllByRecursion};
ghost use Rattle.log_base.specs.Shape.{shape};
ghost use Rattle.command_frame.specs.Items.{IsItem};
ghost use Rattle.history_frame.specs.Spelling.{IsSent};
ghost use Rattle.event_letters.specs.Letters.{parcel};
ghost use Rattle.schedule_model.specs.Scheduling.{at_first, given, handed, is_first_done, is_idle, next_plans, next_turn, noted, passed, ready};
ghost use Rattle.schedule_model.specs.Streams.{IsSingle};
ghost use Rattle.command_frame.specs.Streams.{unplaced};

use crate::hold::Hold;
use crate::lanes::{fresh_lanes, no_records};
use crate::letters::Letter;
use crate::noting::{follow, post};
use crate::passing::pass_over;
use client_session::Session;
use command_frame::{Item, Reply};
use history_frame::Happened;
use item_course::opening;
use log_base::{Config, List, Memory, Outbox, Position};
use schedule_model::{Awaited, Duty, NextTurn, Planned};
use std::alloc::Global;
use std::collections::VecDeque;
use std::marker::Model;
use std::mem;
use subscriber::Subscriber;

/// The schedule of a run over borrowed items.
#[derive(Debug, Drop)]
pub struct Schedule<'a> {
    alloc: Global,
    config: Config,
    items: &'a [Item],
    duties: VecDeque<Duty>,
    queue: VecDeque<Letter>,
    awaited: Option<Awaited>,
    place: u32,
    lanes: Vec<Session>,
    records: Vec<&'a [u8]>,
    subscriber: Subscriber,
    hold: Hold,
    plans: Vec<Planned>,
    replies: Vec<Reply>,
}

impl<'a> Model for Schedule<'a> {
    ghost use Rattle.log_base.specs.Shape.{shape};
    ghost use Rattle.std.specs.Coded.{codes};
    ghost use Rattle.reply_frame.specs.contracts.replies.Reply as reply;
    ghost use Rattle.serial_schedule.specs.Keeping.{IsKeptWith};
    ghost use Rattle.serial_schedule.specs.Lanes.{draws_of, primaries_of, run_of};
    ghost use Rattle.schedule_model.specs.Scheduling.{Scheduled};
    ghost use Rattle.command_frame.specs.Streams.{unplaced};
    ghost use Rattle.std.specs.Prelude.{map};

    ghost Value = { Scheduled };

    ghost coded = { Prim.hlevel (codes, reply.the_row.coded) };

    ghost view = { λ s. record {
      config = shape s.config;
      run = run_of s.lanes.items;
      items = s.items.now;
      duties = s.duties.items;
      queue = s.queue.items;
      awaited = s.awaited;
      place = s.place;
      draws = draws_of s.lanes.items;
      primaries = primaries_of s.lanes.items;
      records = map (λ r. r.now) s.records.items;
      stream = s.subscriber;
      hold = s.hold;
      plans = s.plans.items;
      replies = map unplaced s.replies.items;
    } };

    ghost invariant = { λ s. IsKeptWith (shape s.config) s.lanes.items (map (λ r. r.now) s.records.items) s.items.now s.duties.items s.awaited s.hold };
}

impl<'a> Schedule<'a> {
    /// The schedule at the start of a run. It keeps the allocator.
    pub fn new(
        alloc: Global,
        config: Config,
        run: u32,
        items: &'a [Item],
    ) -> Result<Schedule<'a>, Memory>
        requires run { run ≤ 1000000 }
        requires few { length items.now ≤ 65536 }
        requires items { AllByRecursion (IsItem (shape config)) items.now }
        ensures { IfOk result (λ schedule. schedule ≡ at_first (shape config) run items.now) }
    {
        let duties = VecDeque::from_vec(opening(alloc, &config)?);
        let lanes = fresh_lanes(alloc, run)?;
        let records = no_records(alloc)?;
        Ok(Schedule {
            alloc,
            config,
            items,
            duties,
            queue: VecDeque::new(alloc),
            awaited: None,
            place: 0,
            lanes,
            records,
            subscriber: Subscriber::new(alloc, Position(0)),
            hold: Hold::none(alloc),
            plans: Vec::new(alloc),
            replies: Vec::new(alloc),
        })
    }

    /// The turn that comes next, or none where the run is over, and what disks are told before it.
    pub fn next(&mut self) -> Result<NextTurn, Memory>
        ensures turn { IfOk result (λ next. next.turn ≡ next_turn self.old) }
        ensures plans { IfOk result (λ next. next.plans ≡ next_plans self.old) }
        ensures after { OnOk result (self.new ≡ given self.old) }
        // After `Memory` the same turn comes next.
        ensures err { OnErr result (ready self.new ≡ ready self.old) }
    {
        self.make_ready()?;
        let turn = self.take_turn()?;
        Ok(NextTurn {
            plans: self.hand_over(),
            turn,
        })
    }

    /// Notes what the node did that was given its turn: its letters are taken out of the outbox and join the
    /// queue at its end, and its reply is the answer that was awaited, if one was.
    pub fn note(&mut self, happened: &Happened, out: &mut Outbox) -> Result<(), Memory>
        requires letters { out.old.letters ≡ map parcel happened.now.outputs }
        requires spelled { AllByRecursion IsSent happened.now.outputs }
        requires few { length happened.now.outputs ≤ 255 }
        requires single { IsSingle happened.now.reply }
        requires place { self.old.place < 4294967295 }
        ensures ok { OnOk result (self.new ≡ noted self.old happened.now.outputs happened.now.reply) }
        ensures err { OnErr result (self.new ≡ self.old) }
    {
        let outputs = happened.outputs.get();
        self.queue.reserve(outputs.len())?;
        follow(
            self.alloc,
            &self.config,
            &self.awaited,
            &happened.reply,
            &mut self.subscriber,
            &mut self.duties,
            &mut self.hold,
            &mut self.replies,
        )?;
        self.awaited = None;
        post(self.place, outputs, &mut self.queue, out);
        self.place += 1;
        Ok(())
    }

    /// How many events were noted.
    pub fn place(&self) -> u32
        ensures { result ≡ self.now.place }
    {
        self.place
    }

    /// How many letters wait.
    pub fn waiting(&self) -> usize
        ensures { result ≡ length self.now.queue }
    {
        self.queue.len()
    }

    /// The replies to the items that are done, in order of the items. It is not told where the last answer of a
    /// stream stands in memory.
    pub fn into_replies(self) -> Vec<Reply>
        ensures { map unplaced result.items ≡ self.entry.replies }
    {
        self.replies
    }

    /// Begins items until something is due, or none is left.
    fn make_ready(&mut self) -> Result<(), Memory>
        ensures ok { OnOk result (self.new ≡ ready self.old) }
        ensures stops { OnOk result (is_first_done self.new.queue self.new.duties ≡ false) }
        ensures err { OnErr result (ready self.new ≡ ready self.old) }
    {
        self.pass();
        'items: while self.waits_for_item() {
            self.begin()?;
            self.pass();
        }
        Ok(())
    }

    /// Passes over the duties that are done.
    fn pass(&mut self)
        ensures passed { self.new ≡ passed self.old }
        ensures stops { is_first_done self.new.queue self.new.duties ≡ false }
    {
        pass_over(&self.queue, &mut self.duties);
    }

    /// Whether nothing is due and there is an item to begin.
    fn waits_for_item(&self) -> bool
        ensures { result ≡ (is_idle self.now && nat_lt 0 (length self.now.items)) }
    {
        self.duties.is_empty() && !self.items.is_empty()
    }

    /// Hands over what disks are told.
    fn hand_over(&mut self) -> List<Planned>
        ensures plans { result ≡ self.old.plans }
        ensures handed { self.new ≡ handed self.old }
    {
        List::of(mem::replace(&mut self.plans, Vec::new(self.alloc)))
    }
}
