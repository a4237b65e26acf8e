//! Holds: items that settle no more by themselves.

ghost use Rattle.std.specs.Prelude.{◌≡◌, None, OnErr, OnOk, is_some};
ghost use Rattle.schedule_model.specs.Holding.{begun_hold, questions_of};
ghost use Rattle.schedule_model.specs.Scheduling.{put_off_with};

use log_base::Memory;
use schedule_model::{PutOff, Question};
use std::alloc::Global;
use std::marker::Model;

/// Whether items settle by themselves.
#[derive(Clone, Copy, Debug, PartialEq, Eq)]
pub enum Standing {
    Settling,
    Holding,
}

/// A hold, if there is one, with the questions that its items put off.
#[derive(Debug, Drop)]
pub struct Hold {
    standing: Standing,
    put_off: Vec<PutOff>,
}

impl Model for Hold {
    ghost use Rattle.std.specs.Prelude.{List, Option};
    ghost use Rattle.serial_schedule.specs.Holds.{hold_of};
    ghost use Rattle.schedule_model.specs.declared.duties.PutOff.{PutOff as Late};

    ghost Value = { Option (List Late) };

    ghost view = { λ h. hold_of h.standing h.put_off.items };
}

impl Hold {
    /// No hold.
    pub fn none(alloc: Global) -> Hold
        ensures { result ≡ None }
    {
        Hold {
            standing: Standing::Settling,
            put_off: Vec::new(alloc),
        }
    }

    /// Whether items settle by themselves.
    pub fn is_held(&self) -> bool
        ensures { result ≡ is_some self.now }
    {
        match self.standing {
            Standing::Settling => false,
            Standing::Holding => true,
        }
    }

    /// The questions that were put off.
    pub fn questions(&self) -> &[PutOff]
        ensures { result.now ≡ questions_of self.now }
    {
        match self.standing {
            Standing::Settling => &[],
            Standing::Holding => &self.put_off,
        }
    }

    /// Begins a hold. One that began before stays.
    pub fn begin(&mut self)
        ensures { self.new ≡ begun_hold self.old }
    {
        if let Standing::Settling = self.standing {
            self.put_off.clear();
            self.standing = Standing::Holding;
        }
    }

    /// Ends a hold, and forgets its questions.
    pub fn end(&mut self)
        ensures { self.new ≡ None }
    {
        self.standing = Standing::Settling;
    }

    /// Puts a question off, while items are held.
    pub fn put_off(&mut self, item: usize, question: Question) -> Result<(), Memory>
        ensures ok { OnOk result (self.new ≡ put_off_with self.old item question) }
        ensures err { OnErr result (self.new ≡ self.old) }
    {
        match self.standing {
            Standing::Settling => Ok(()),
            Standing::Holding => {
                self.put_off.push(PutOff { item, question })?;
                Ok(())
            }
        }
    }
}
