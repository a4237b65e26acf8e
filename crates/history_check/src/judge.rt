//! The judge of a history, which is handed its pieces one by one.

ghost use Rattle.std.specs.Prelude.{List, [], ◌∷◌, ◌++◌, IfOk, OnOk};
ghost use Rattle.history_frame.specs.declared.pieces.Piece.{Piece};
ghost use Rattle.history_frame.specs.declared.stages.Stage.TheVariants.{Before};
ghost use Rattle.history_frame.specs.Frames.{IsInside};
ghost use Rattle.history_check.specs.Courses.{stage_from};

use crate::verdicts::Verdict;
use core_step::{Sounding, sound};
use history_frame::{Event, Kept, Piece};
use history_walk::{Following, Walker};
use log_base::{Bytes, Config, Memory};
use std::alloc::Global;
use std::mem;

/// How far a history was judged.
#[derive(Drop)]
pub(crate) enum Judge {
    /// Replies alone were read.
    Waiting,
    /// The head and payloads were read.
    Keeping {
        config: Config,
        run: u32,
        kept: Vec<Kept>,
    },
    /// So many events were read, and they are legal.
    Walking {
        walker: Walker,
        events: u32,
    },
    /// It is not legal with the event at this place.
    Broken {
        place: u32,
    },
}

impl Judge {
    ghost use Rattle.history_check.specs.Judging.{Comes, HasBegun, IsJudge, IsJudgement};

    /// Takes the next piece, which is taken apart. After want of memory nothing is said of the judge.
    pub(crate) fn take(&mut self, alloc: Global, piece: &mut Piece) -> Result<(), Memory>
        requires { (pieces : List Piece) × IsJudge self.old pieces × Comes pieces piece.old }
        ensures { OnOk result ((pieces : List Piece) → IsJudge self.old pieces → Comes pieces piece.old → IsJudge self.new (pieces ++ piece.old ∷ [])) }
    {
        match piece {
            Piece::Reply => return Ok(()),
            Piece::Head { config, run } => {
                self.head(alloc, *config, *run);
                return Ok(());
            }
            Piece::Kept(kept) => return self.keep(alloc, kept),
            Piece::Event(event) => {
                self.begin(alloc)?;
                return self.walk(event);
            }
            Piece::End => unreachable!(),
        }
    }

    /// The verdict at the end, which is behind the head.
    pub(crate) fn verdict(&mut self, alloc: Global) -> Result<Verdict, Memory>
        requires { (pieces : List Piece) × IsJudge self.old pieces × IsInside (stage_from Before pieces) }
        ensures { IfOk result (λ verdict. (pieces : List Piece) → IsJudge self.old pieces → IsInside (stage_from Before pieces) → IsJudgement pieces verdict) }
    {
        self.begin(alloc)?;
        match self {
            Judge::Walking { events, .. } => return Ok(Verdict::Lawful { events: *events }),
            Judge::Broken { place } => return Ok(Verdict::Unlawful { place: *place }),
            Judge::Waiting | Judge::Keeping { .. } => unreachable!(),
        }
    }

    // A head, behind replies alone.
    fn head(&mut self, alloc: Global, config: Config, run: u32)
        ensures { (judge : Judge) (pieces : List Piece) → IsJudge judge pieces → Comes pieces (Piece.Head config run) → IsJudge self.new (pieces ++ Piece.Head config run ∷ []) }
    {
        *self = Judge::Keeping {
            config,
            run,
            kept: Vec::new(alloc),
        };
    }

    // One payload more, which is moved out of its place.
    fn keep(&mut self, alloc: Global, one: &mut Kept) -> Result<(), Memory>
        ensures { OnOk result ((pieces : List Piece) → IsJudge self.old pieces → Comes pieces (Piece.Kept one.old) → IsJudge self.new (pieces ++ Piece.Kept one.old ∷ [])) }
    {
        match self {
            Judge::Keeping { kept, .. } => {
                let none = Kept {
                    disk: one.disk,
                    payload: Bytes::of(Vec::new(alloc)),
                };
                kept.push(mem::replace(one, none))?;
                return Ok(());
            }
            _ => return Ok(()),
        }
    }

    // Behind the last payload: the nodes begin, unless the lists are not sound.
    fn begin(&mut self, alloc: Global) -> Result<(), Memory>
        requires { (pieces : List Piece) × IsJudge self.old pieces }
        ensures { OnOk result ((pieces : List Piece) → IsJudge self.old pieces → IsInside (stage_from Before pieces) → HasBegun self.new pieces) }
    {
        match self {
            Judge::Keeping { .. } => return self.walk_from_here(alloc),
            _ => return Ok(()),
        }
    }

    // Behind the last payload, where that may be. Each event asks for it, and so it stands apart.
    #[inline(never)]
    fn walk_from_here(&mut self, alloc: Global) -> Result<(), Memory>
        requires { (pieces : List Piece) × IsJudge self.old pieces }
        ensures { OnOk result ((pieces : List Piece) → IsJudge self.old pieces → IsInside (stage_from Before pieces) → HasBegun self.new pieces) }
    {
        let keeping = mem::replace(self, Judge::Waiting);
        *self = keeping.begun(alloc)?;
        Ok(())
    }

    // The judge behind the last payload.
    fn begun(self, alloc: Global) -> Result<Judge, Memory>
        requires { (pieces : List Piece) × IsJudge self pieces }
        ensures { IfOk result (λ judge. (pieces : List Piece) → IsJudge self pieces → IsInside (stage_from Before pieces) → HasBegun judge pieces) }
    {
        match self {
            Judge::Keeping { config, run, kept } => match sound(&config, run, &kept) {
                Sounding::Breaks { .. } => return Ok(Judge::Broken { place: 0 }),
                Sounding::Sound => {
                    let walker = Walker::start(alloc, config, run, kept)?;
                    return Ok(Judge::Walking { walker, events: 0 });
                }
            },
            other => return Ok(other),
        }
    }

    // One event more.
    fn walk(&mut self, event: &mut Event) -> Result<(), Memory>
        requires { (pieces : List Piece) × HasBegun self.old pieces × Comes pieces (Piece.Event event.old) }
        ensures { OnOk result ((pieces : List Piece) → HasBegun self.old pieces → Comes pieces (Piece.Event event.old) → IsJudge self.new (pieces ++ Piece.Event event.old ∷ [])) }
    {
        match self {
            Judge::Walking { walker, events } => match walker.offer(event)? {
                Following::Follows => *events += 1,
                Following::Breaks => {
                    let place = *events;
                    *self = Judge::Broken { place };
                }
            },
            _ => {}
        }
        Ok(())
    }
}
