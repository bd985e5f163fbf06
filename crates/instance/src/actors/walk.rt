//! The steps that can be made, by number.
ghost use Rattle.std.specs.Prelude.{◌≡◌, true, false, IfOk};
ghost use Rattle.services.specs.kvs_keys.Walk.{nth};
ghost use Rattle.services.specs.Order.{possible, possible_losses};
ghost use Rattle.services.specs.Steps.{can_step};
ghost use Rattle.instance.specs.Agrees.{AreLinesOf};
ghost use Rattle.instance.specs.Order.{answers, feeds, issues};
ghost use Rattle.instance.specs.Steps.{can_answer, can_feed, can_issue};

use super::Instance;
use crate::seats::{has_feed, held_answers, is_answered, issue_from};
use services::kvs_rules::KvsStep;
use services::workload::Line;

impl Instance {
    /// The step of this number among those of the services, or what the number has left behind
    /// them.
    pub fn nth_turn(&self, number: u64) -> Result<KvsStep, u64>
        requires { self.now.spent ≡ false }
        ensures value { result ≡ nth (possible self.now.services) number }
        ensures can { IfOk result (λ step. can_step self.now.services step ≡ true) }
    {
        self.services.nth(number)
    }

    /// The loss of this number among those of the services, or what the number has left behind
    /// them.
    pub fn nth_loss(&self, number: u64) -> Result<KvsStep, u64>
        requires { self.now.spent ≡ false }
        ensures value { result ≡ nth (possible_losses self.now.services) number }
        ensures can { IfOk result (λ step. can_step self.now.services step ≡ true) }
    {
        self.services.nth_loss(number)
    }

    /// The actor of this number among those whose open watch can be fed, or what the number has
    /// left behind them.
    pub fn nth_feed(&self, number: u64) -> Result<u32, u64>
        requires { self.now.spent ≡ false }
        ensures value { result ≡ nth (feeds self.now) number }
        ensures can { IfOk result (λ a. can_feed self.now a ≡ true) }
    {
        let mut left = number;
        for actor in 0..self.seats.len() as u32 {
            if has_feed(&self.services, &self.seats, actor) {
                if left == 0 {
                    return Ok(actor);
                }
                left -= 1;
            }
        }
        Err(left)
    }

    /// The actor of this number among those whose open command can be replied, or what the number
    /// has left behind them.
    pub fn nth_answer(&self, number: u64) -> Result<u32, u64>
        requires { self.now.spent ≡ false }
        ensures value { result ≡ nth (answers self.now) number }
        ensures can { IfOk result (λ a. can_answer self.now a ≡ true) }
    {
        let held = held_answers(&self.services, &self.seats);
        let mut left = number;
        for actor in 0..self.seats.len() as u32 {
            if is_answered(&self.services, &self.seats, &held, actor) {
                if left == 0 {
                    return Ok(actor);
                }
                left -= 1;
            }
        }
        Err(left)
    }

    /// The actor of this number among those whose next command can be issued, by their lines, or
    /// what the number has left behind them.
    pub fn nth_issue(&self, lines: &[Line], number: u64) -> Result<u32, u64>
        requires ready { self.now.spent ≡ false }
        requires lines { AreLinesOf self.now lines.now }
        ensures value { result ≡ nth (issues lines.now self.now) number }
        ensures can { IfOk result (λ a. can_issue lines.now self.now a ≡ true) }
    {
        let mut left = number;
        let mut from = 0;
        while let Some(actor) = issue_from(lines.len(), &self.seats, from) {
            if left == 0 {
                return Ok(actor);
            }
            left -= 1;
            from = self.seats[actor as usize].next + 1;
        }
        Err(left)
    }
}
