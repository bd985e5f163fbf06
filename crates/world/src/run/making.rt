//! Steps of one instance and its actors.
ghost use Rattle.std.specs.Prelude.{◌≡◌, ◌+◌, ◌<◌, ◌^◌, ◌||◌, OnErr, OnOk, Some, false, is_some, length, true};
ghost use Rattle.hierarchy.specs.Families.{is_shutdown};
ghost use Rattle.instance.specs.Steps.{can_answer as instance_can_answer};
ghost use Rattle.world.specs.Acting.{IsGoneAt, IsPlacedIn};
ghost use Rattle.world.specs.Advances.{Advances};
ghost use Rattle.homes.specs.Homes.{IsNextLine, living_at};
ghost use Rattle.world.specs.Steps.{CanMake, MayStart, can_answer, can_issue, of_home};

use super::{World, keep};
use homes::{Place, enter, next_line};
use instance::CoreFault;
use instance::answers::{Entry, Reply, Step};
use instance::kvs_rules::KvsStep;
use instance::workload::{Command, Line};
use std::alloc::AllocError;

/// Whether an instance shuts down that is issued a command, and did so before it or not.
fn shuts_behind(shuts: bool, command: &Command) -> bool
    ensures { result ≡ (shuts || is_shutdown (Some command.now)) }
{
    shuts || matches!(command, Command::Shutdown)
}

/// The place of an actor whose next command is issued.
fn issued_from(place: Place, lines: &[Line], actor: u32) -> Place
    requires few { length lines.now < 2 ^ 32 }
    requires next { IsNextLine lines.now actor place.issued place.next }
    requires more { place.next < length lines.now }
    ensures waits { result ≡ record {
      home = place.home;
      next = result.next;
      issued = place.issued + 1;
      waits = true;
    } }
    ensures next { IsNextLine lines.now actor (place.issued + 1) result.next }
{
    Place {
        home: place.home,
        next: next_line(lines, place.next + 1, actor),
        issued: place.issued + 1,
        waits: true,
    }
}

impl World {
    /// Whether an actor's next command can be issued: its instance is born or has gone, and the
    /// actor waits for nothing.
    pub(super) fn can_issue(&self, actor: u32) -> bool
        ensures { result ≡ can_issue self.now actor }
    {
        match self.places.get(actor as usize) {
            Some(place) => {
                place.home.is_some()
                    && !place.waits
                    && place.next < self.work.lines.as_slice().len()
            }
            None => false,
        }
    }

    /// Whether an actor's open command can be replied: by its instance, or, where that has gone,
    /// that it has.
    pub(super) fn can_answer(&self, actor: u32) -> bool
        requires ready { self.now.spent ≡ false }
        requires runs { self.now.closed ≡ false }
        ensures { result ≡ can_answer self.now actor }
    {
        let Some(place) = self.places.get(actor as usize) else {
            return false;
        };
        let Some(number) = place.home else {
            return false;
        };
        let home = &self.homes[number as usize];
        if home.gone {
            place.waits
        } else {
            home.instance.can_answer(actor)
        }
    }

    /// Makes a step of the service of an instance.
    pub(super) fn serve(&mut self, number: u32, step: KvsStep) -> Result<(), CoreFault>
        requires ready { self.old.spent ≡ false }
        requires can { CanMake self.old (Step.Kvs number step) }
        ensures advances { OnOk result (Advances self.old (Step.Kvs number step) self.new) }
        ensures order { OnOk result (self.new.order ≡ self.old.order) }
        ensures spent { OnErr result (self.new.spent ≡ true) }
    {
        self.spent = true;
        let made = self.homes[number as usize].instance.turn(step)?;
        enter(&mut self.chronicle, made, number)?;
        keep(
            &mut self.steps,
            &mut self.ends,
            &self.chronicle,
            Step::Kvs {
                instance: number,
                step,
            },
        )?;
        self.spent = false;
        Ok(())
    }

    /// Posts what is due of an instance's jobs, which enters nothing.
    pub(super) fn post(&mut self, number: u32) -> Result<(), CoreFault>
        requires ready { self.old.spent ≡ false }
        requires can { CanMake self.old (Step.Post number) }
        ensures advances { OnOk result (Advances self.old (Step.Post number) self.new) }
        ensures order { OnOk result (self.new.order ≡ self.old.order) }
        ensures spent { OnErr result (self.new.spent ≡ true) }
    {
        self.spent = true;
        self.homes[number as usize].instance.post()?;
        keep(
            &mut self.steps,
            &mut self.ends,
            &self.chronicle,
            Step::Post { instance: number },
        )?;
        self.spent = false;
        Ok(())
    }

    /// Replies to the open command of an actor.
    pub(super) fn answer(&mut self, actor: u32) -> Result<(), AllocError>
        requires ready { self.old.spent ≡ false }
        requires can { CanMake self.old (Step.Answer actor) }
        ensures advances { OnOk result (Advances self.old (Step.Answer actor) self.new) }
        ensures order { OnOk result (self.new.order ≡ self.old.order) }
        ensures spent { OnErr result (self.new.spent ≡ true) }
    {
        let Some(number) = self.places[actor as usize].home else {
            unreachable!()
        };
        if self.homes[number as usize].gone {
            self.tell_left(actor, number)
        } else {
            self.reply_in(actor, number)
        }
    }

    /// The living instance of an actor replies to the actor's open command.
    fn reply_in(&mut self, actor: u32, number: u32) -> Result<(), AllocError>
        requires ready { self.old.spent ≡ false }
        requires runs { self.old.closed ≡ false }
        requires home { IsPlacedIn self.old.places actor number }
        requires can { of_home self.old number (λ h. instance_can_answer h.instance actor) ≡ true }
        ensures advances { OnOk result (Advances self.old (Step.Answer actor) self.new) }
        ensures order { OnOk result (self.new.order ≡ self.old.order) }
        ensures spent { OnErr result (self.new.spent ≡ true) }
    {
        self.spent = true;
        let made = self.homes[number as usize].instance.answer(actor)?;
        enter(&mut self.chronicle, made, number)?;
        self.places[actor as usize].waits = false;
        keep(
            &mut self.steps,
            &mut self.ends,
            &self.chronicle,
            Step::Answer { actor },
        )?;
        self.spent = false;
        Ok(())
    }

    /// An actor that waits is told that its instance has gone.
    fn tell_left(&mut self, actor: u32, number: u32) -> Result<(), AllocError>
        requires ready { self.old.spent ≡ false }
        requires runs { self.old.closed ≡ false }
        requires home { IsPlacedIn self.old.places actor number }
        requires gone { IsGoneAt self.old.homes number }
        requires can { can_answer self.old actor ≡ true }
        ensures advances { OnOk result (Advances self.old (Step.Answer actor) self.new) }
        ensures order { OnOk result (self.new.order ≡ self.old.order) }
        ensures spent { OnErr result (self.new.spent ≡ true) }
    {
        let command = self.places[actor as usize].issued - 1;
        self.spent = true;
        self.chronicle.push(Entry::Replied {
            actor,
            command,
            reply: Reply::Gone,
            number: None,
        })?;
        self.places[actor as usize].waits = false;
        keep(
            &mut self.steps,
            &mut self.ends,
            &self.chronicle,
            Step::Answer { actor },
        )?;
        self.spent = false;
        Ok(())
    }

    /// Issues the next command of an actor.
    pub(super) fn issue(&mut self, actor: u32) -> Result<(), AllocError>
        requires ready { self.old.spent ≡ false }
        requires can { CanMake self.old (Step.Issue actor) }
        requires rests { MayStart self.old (Step.Issue actor) }
        ensures advances { OnOk result (Advances self.old (Step.Issue actor) self.new) }
        ensures order { OnOk result (self.new.order ≡ self.old.order) }
        ensures spent { OnErr result (self.new.spent ≡ true) }
    {
        let Some(number) = self.places[actor as usize].home else {
            unreachable!()
        };
        if self.homes[number as usize].gone {
            self.issue_left(actor, number)
        } else {
            self.issue_in(actor, number)
        }
    }

    /// Issues the next command of an actor to the living instance of the actor.
    fn issue_in(&mut self, actor: u32, number: u32) -> Result<(), AllocError>
        requires ready { self.old.spent ≡ false }
        requires runs { self.old.closed ≡ false }
        requires home { IsPlacedIn self.old.places actor number }
        requires lives { is_some (living_at self.old.homes number) ≡ true }
        requires can { can_issue self.old actor ≡ true }
        requires rests { MayStart self.old (Step.Issue actor) }
        ensures advances { OnOk result (Advances self.old (Step.Issue actor) self.new) }
        ensures order { OnOk result (self.new.order ≡ self.old.order) }
        ensures spent { OnErr result (self.new.spent ≡ true) }
    {
        let lines = self.work.lines.as_slice();
        let place = self.places[actor as usize];
        self.spent = true;
        let home = &mut self.homes[number as usize];
        let made = home.instance.issue(home.work.lines.as_slice(), actor)?;
        home.shuts = shuts_behind(home.shuts, &lines[place.next].command);
        enter(&mut self.chronicle, made, number)?;
        self.places[actor as usize] = issued_from(place, lines, actor);
        keep(
            &mut self.steps,
            &mut self.ends,
            &self.chronicle,
            Step::Issue { actor },
        )?;
        self.spent = false;
        Ok(())
    }

    /// Issues the next command of an actor whose instance has gone.
    fn issue_left(&mut self, actor: u32, number: u32) -> Result<(), AllocError>
        requires ready { self.old.spent ≡ false }
        requires runs { self.old.closed ≡ false }
        requires home { IsPlacedIn self.old.places actor number }
        requires gone { IsGoneAt self.old.homes number }
        requires can { can_issue self.old actor ≡ true }
        ensures advances { OnOk result (Advances self.old (Step.Issue actor) self.new) }
        ensures order { OnOk result (self.new.order ≡ self.old.order) }
        ensures spent { OnErr result (self.new.spent ≡ true) }
    {
        let place = self.places[actor as usize];
        self.spent = true;
        self.chronicle.push(Entry::Issued {
            actor,
            command: place.issued,
        })?;
        self.places[actor as usize] = issued_from(place, self.work.lines.as_slice(), actor);
        keep(
            &mut self.steps,
            &mut self.ends,
            &self.chronicle,
            Step::Issue { actor },
        )?;
        self.spent = false;
        Ok(())
    }
}
