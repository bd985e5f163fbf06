//! Open looks, which are told what was seen of `primary` without asking the instance.
ghost use Rattle.std.specs.Prelude.{◌≡◌, ◌≤◌, true, false, IfOk, IsSomeAnd, OnErr, OnOk};
ghost use Rattle.instance.specs.Makes.{Records};
ghost use Rattle.instance.specs.Steps.{look_of};

use super::{Instance, only, see_number};
use crate::seats::{OpenLook, Waiting, look_in};
use services::answers::{Chronicle, Entry, Reply};
use std::alloc::AllocError;

impl Instance {
    /// The open look of an actor, if it has one.
    pub fn look_of(&self, actor: u32) -> Option<OpenLook>
        ensures { result ≡ look_of self.now actor }
    {
        match self.seats.get(actor as usize) {
            Some(seat) => look_in(seat),
            None => None,
        }
    }

    /// Replies to the open look of an actor with a number that was seen, which is no less than the
    /// look may tell, and gives what happened; that follows where the actor's broker has heard the
    /// number. After an error the instance is spent.
    pub fn record(&mut self, actor: u32, number: u64) -> Result<Chronicle, AllocError>
        requires ready { self.old.spent ≡ false }
        requires open { IsSomeAnd (look_of self.old actor) (λ look. look.need ≤ number) }
        ensures ready { OnOk result (self.new.spent ≡ false) }
        ensures makes { IfOk result (Records self.old actor number self.new) }
        ensures spent { OnErr result (self.new.spent ≡ true) }
    {
        self.spent = true;
        let seat = &mut self.seats[actor as usize];
        let command = seat.issued.saturating_sub(1);
        seat.waiting = Waiting::Nothing;
        see_number(&mut seat.floors, &seat.subject, Some(number))?;
        let replied = Entry::Replied {
            actor,
            command,
            reply: Reply::Seen,
            number: Some(number),
        };
        let made = only(self.alloc, replied)?;
        self.spent = false;
        Ok(made)
    }
}
